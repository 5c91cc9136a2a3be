// The entry of the edit.
ghost use Rattle.std.specs.Prelude.{◌≡◌};
ghost use Rattle.sparse.specs.Refusals.{Roomy};
ghost use Rattle.triangular.specs.Outcome.{Work, lent, buffers, held_work, held_outputs, held, ended};
ghost use Rattle.triangular.specs.Parts.{SameWork, SameSlices, SameOutputs};
ghost use Rattle.edit.specs.Outcome.{edit_entries, replaced, outcome, Means};

use super::valid::edit_valid;
use rematching::checks::check_edit;
use sparse::checks::check_early;
use sparse::slices::clear;
use sparse::{Column, Edit, Refusal, SquareMat};
use triangular::form::{clear_work, lacks_room};
use triangular::{FormOutputs, FormWork};

// How many entries there must be room for: those of the old matrix, and n more, which a replacement may bring.
fn edit_entries(size: u32, rows: &[u32]) -> usize
    ensures { result ≡ edit_entries size rows.now }
{
    rows.len() + size as usize
}

// The edit of a matrix that refusals 1, 2, 5 and 3 let through. What the workspace holds afterwards is the caller's to clear.
fn edit_tested(
    mat: &SquareMat,
    edit: &Edit,
    work: &mut FormWork,
    outputs: &mut FormOutputs,
) -> Result<u32, Refusal>
    requires { Roomy (buffers mat.now.mat.size (edit_entries mat.now.mat.size mat.now.mat.rows.now) (held work.old outputs.old)) }
    ensures outputs_after { (w : Work) → ended result (lent w (held_outputs outputs.new))
        ≡ replaced mat.now.mat.size mat.now.mat.starts.now mat.now.mat.rows.now edit.now.column.0 edit.now.rows.now w
        (held_outputs outputs.old) }
    ensures same_work { SameWork mat.now.mat.size (edit_entries mat.now.mat.size mat.now.mat.rows.now) (held_work work.old)
        (held_work work.new) }
    ensures same_slices { SameSlices work.old work.new × SameOutputs outputs.old outputs.new }
{
    // What is only read has a name of its own, so that what it holds stays known to the proof.
    let row2col = &mut *outputs.row2col;
    clear(work.visited, mat.mat.size);
    check_edit(mat, edit, row2col, work.visited, work.col2row)?;
    edit_valid(mat, edit, work, outputs)
}

// One column of a matrix replaced: the old matching, lent in row2col, becomes one of the edited matrix, along one path, and the blocks
// follow; or the first refusal of the table, 9 with the marks of a Hall set and the old matching as it was.
pub fn edit_column(
    size: u32,
    starts: &[u32],
    rows: &[u32],
    edited: Column,
    replacement: &[u32],
    work: &mut FormWork,
    outputs: &mut FormOutputs,
) -> Result<u32, Refusal>
    ensures outcome { ended result (held work.new outputs.new)
        ≡ outcome size starts.now rows.now edited.0 replacement.now (held work.old outputs.old) }
    ensures meaning { Means size starts.now rows.now edited.0 replacement.now (held work.old outputs.old)
        (held work.new outputs.new) result }
    ensures same_slices { SameSlices work.old work.new × SameOutputs outputs.old outputs.new }
{
    let entries = edit_entries(size, rows);
    let short = lacks_room(size, entries, work, outputs);
    let mat = check_early(size, starts, rows, short)?;
    let edit = Edit {
        column: edited,
        rows: replacement,
    };
    let answer = edit_tested(&mat, &edit, work, outputs);
    clear_work(size, entries, work);
    answer
}
