// The entry of the block form: the matching first, and under it the two passes.
ghost use Rattle.std.specs.Prelude.{◌≡◌, ℕ, ◌<◌, length};
ghost use Rattle.graph.specs.Lists.{Once};
ghost use Rattle.sparse.specs.Columns.{columns};
ghost use Rattle.sparse.specs.Parts.{ZeroBelow};
ghost use Rattle.sparse.specs.Refusals.{Roomy};
ghost use Rattle.matching.specs.Matching.{matching};
ghost use Rattle.triangular.specs.Outcome.{Work, lent, buffers, held_work, held_outputs, held};
ghost use Rattle.triangular.specs.Outcome.{handed_out, formed, outcome, ended, Means};
ghost use Rattle.triangular.specs.Parts.{SameWork, SameSlices, SameOutputs};

use super::form::{FormOutputs, FormWork, clear_blocks, clear_work, lacks_room};
use super::matched::block_matched;
use matching::SearchWork;
use matching::diagonal::match_valid;
use sparse::checks::{check_early, check_repeats};
use sparse::slices::clear;
use sparse::{Refusal, SquareMat};

// The block form of a valid matrix, over stamps that are zero. What the workspace holds afterwards is the caller's to clear.
pub fn block_valid(
    mat: &SquareMat,
    work: &mut FormWork,
    outputs: &mut FormOutputs,
) -> Result<u32, Refusal>
    requires once { (c : ℕ) → c < mat.now.mat.size → Once (columns mat.now.mat c) }
    requires roomy { Roomy (buffers mat.now.mat.size (length mat.now.mat.rows.now) (held work.old outputs.old)) }
    requires zero_below { ZeroBelow mat.now.mat.size work.old.visited.now }
    ensures outputs_after { (w : Work) → ended result (lent w (held_outputs outputs.new))
        ≡ handed_out mat.now.mat.size (columns mat.now.mat) w (held_outputs outputs.old)
        (matching mat.now.mat.size (columns mat.now.mat)) }
    ensures same_work { SameWork mat.now.mat.size (length mat.now.mat.rows.now) (held_work work.old) (held_work work.new) }
    ensures same_slices { SameSlices work.old work.new × SameOutputs outputs.old outputs.new }
{
    // What is only read later has a name of its own, so that what it holds stays known to the proof.
    let row2col = &mut *outputs.row2col;
    let mut slices = SearchWork {
        visited: &mut *work.visited,
        cheap: &mut *work.cheap,
        scol: &mut *work.scol,
        sat: &mut *work.sat,
    };
    let matched = match_valid(mat, &mut slices, row2col, outputs.hall);
    let Ok(()) = matched else {
        clear_blocks(mat.mat.size, outputs.blockcols, outputs.blockstarts);
        return matched.map(|()| 0);
    };
    let count = block_matched(
        &mat.mat.unedited(),
        row2col,
        work,
        outputs.blockcols,
        outputs.blockstarts,
    );
    Ok(count)
}

// The block form of a matrix that refusals 1, 2, 5 and 3 let through. What the workspace holds afterwards is the caller's to clear.
pub fn block_tested(
    mat: &SquareMat,
    work: &mut FormWork,
    outputs: &mut FormOutputs,
) -> Result<u32, Refusal>
    requires { Roomy (buffers mat.now.mat.size (length mat.now.mat.rows.now) (held work.old outputs.old)) }
    ensures outputs_after { (w : Work) → ended result (lent w (held_outputs outputs.new))
        ≡ formed mat.now.mat.size mat.now.mat.starts.now mat.now.mat.rows.now w (held_outputs outputs.old) }
    ensures same_work { SameWork mat.now.mat.size (length mat.now.mat.rows.now) (held_work work.old) (held_work work.new) }
    ensures same_slices { SameSlices work.old work.new × SameOutputs outputs.old outputs.new }
{
    clear(work.visited, mat.mat.size);
    check_repeats(mat, work.visited)?;
    block_valid(mat, work, outputs)
}

// The block triangular form of a matrix: a matching, and the blocks under it one after the other; or the first refusal of the table,
// 9 with the marks of a Hall set.
pub fn find_block_diag_form(
    size: u32,
    starts: &[u32],
    rows: &[u32],
    work: &mut FormWork,
    outputs: &mut FormOutputs,
) -> Result<u32, Refusal>
    ensures outcome { ended result (held work.new outputs.new) ≡ outcome size starts.now rows.now (held work.old outputs.old) }
    ensures meaning { Means size starts.now rows.now (held work.old outputs.old) (held work.new outputs.new) result }
    ensures same_slices { SameSlices work.old work.new × SameOutputs outputs.old outputs.new }
{
    let short = lacks_room(size, rows.len(), work, outputs);
    let mat = check_early(size, starts, rows, short)?;
    let answer = block_tested(&mat, work, outputs);
    clear_work(size, rows.len(), work);
    answer
}
