// An edit that every check let through: one search, and the blocks under the matching it leaves.
ghost use Rattle.std.specs.Prelude.{◌≡◌, ℕ, ◌+◌, ◌≤◌, ◌<◌, eqb, length, get_or, take};
ghost use Rattle.graph.specs.Counting.{bit};
ghost use Rattle.graph.specs.Edits.{edited, former};
ghost use Rattle.graph.specs.Lists.{Once, table};
ghost use Rattle.sparse.specs.Columns.{columns};
ghost use Rattle.sparse.specs.Refusals.{Roomy};
ghost use Rattle.rematching.specs.Checks.{Editable};
ghost use Rattle.rematching.specs.Rematching.{rematching};
ghost use Rattle.triangular.specs.Outcome.{Work, lent, buffers, held_work, held_outputs, holding_outputs, held};
ghost use Rattle.triangular.specs.Outcome.{form_need, starts_need, ended, unmatchable};
ghost use Rattle.triangular.specs.Parts.{SameWork, SameSlices, SameOutputs};
ghost use Rattle.edit.specs.Outcome.{edit_entries, refused_outputs, handed_out};

use matching::SearchWork;
use matching::diagonal::mark_hall;
use rematching::rematch::rematch;
use sparse::slices::{clear, get};
use sparse::{Column, Edit, EditedMat, OriginalRow, Refusal, SquareMat};
use triangular::form::clear_blocks;
use triangular::matched::block_matched;
use triangular::{FormOutputs, FormWork};

// Refusal 9 at a column: the columns with its stamp are marked, and there are no blocks.
fn refuse_edit(
    size: u32,
    c: Column,
    work: &FormWork,
    outputs: &mut FormOutputs,
) -> Result<u32, Refusal>
    requires column_in_bounds { c.0 < size }
    requires size_in_bounds { (size ≤ length work.now.visited.now) × (size ≤ length outputs.old.hall.now)
        × (form_need size ≤ length outputs.old.blockcols.now) × (starts_need size ≤ length outputs.old.blockstarts.now) }
    ensures value { result ≡ unmatchable c.0 }
    ensures outputs_after { outputs.new ≡ holding_outputs outputs.old (refused_outputs size
        (table (λ d. bit (eqb (get_or work.now.visited.now d 0) (c.0 + 1))) size) (held_outputs outputs.old)) }
{
    mark_hall(size, work.visited, c.0 + 1, outputs.hall);
    clear_blocks(size, outputs.blockcols, outputs.blockstarts);
    Err(Refusal::Unmatchable(c))
}

// The edit of a valid matrix, where the row of the edited column stands in col2row. What the workspace holds afterwards is the caller's
// to clear.
pub fn edit_valid(
    mat: &SquareMat,
    edit: &Edit,
    work: &mut FormWork,
    outputs: &mut FormOutputs,
) -> Result<u32, Refusal>
    requires once { (c : ℕ) → c < mat.now.mat.size → Once (columns mat.now.mat c) }
    requires editable { Editable mat.now.mat.size mat.now.mat.starts.now mat.now.mat.rows.now edit.now.column.0 edit.now.rows.now
        outputs.old.row2col.now }
    requires roomy { Roomy (buffers mat.now.mat.size (edit_entries mat.now.mat.size mat.now.mat.rows.now)
        (held work.old outputs.old)) }
    requires edited_value { get_or work.old.col2row.now edit.now.column.0 0
        ≡ former mat.now.mat.size outputs.old.row2col.now edit.now.column.0 }
    ensures outputs_after { (w : Work) → ended result (lent w (held_outputs outputs.new))
        ≡ handed_out mat.now.mat.size (edited (columns mat.now.mat) edit.now.column.0 edit.now.rows.now) w
        (held_outputs outputs.old) (rematching mat.now.mat.size (edited (columns mat.now.mat) edit.now.column.0 edit.now.rows.now)
        (take mat.now.mat.size outputs.old.row2col.now) edit.now.column.0) }
    ensures same_work { SameWork mat.now.mat.size (edit_entries mat.now.mat.size mat.now.mat.rows.now) (held_work work.old)
        (held_work work.new) }
    ensures same_slices { SameSlices work.old work.new × SameOutputs outputs.old outputs.new }
{
    let size = mat.mat.size;
    clear(work.visited, size);
    clear(work.cheap, size);
    // What is only read has a name of its own, so that what it holds stays known to the proof.
    let col2row = &mut *work.col2row;
    let row2col = &mut *outputs.row2col;
    let row = get::<Column, OriginalRow>(col2row, edit.column);
    let mut slices = SearchWork {
        visited: &mut *work.visited,
        cheap: &mut *work.cheap,
        scol: &mut *work.scol,
        sat: &mut *work.sat,
    };
    let failed = rematch(mat, edit, row, &mut slices, row2col);
    if let Some(c) = failed {
        return refuse_edit(size, c, work, outputs);
    }
    clear(outputs.hall, size);
    let edited = EditedMat {
        mat: mat.mat,
        edit: Some(*edit),
    };
    let count = block_matched(
        &edited,
        row2col,
        work,
        outputs.blockcols,
        outputs.blockstarts,
    );
    Ok(count)
}
