// One row for each column, so that the matched entries could stand on a diagonal: a search from every column in turn.
ghost use Rattle.std.specs.Prelude.{◌≡◌, List, Option, ℕ, ◌≤◌, ◌<◌, eqb, length, get_or, IfSome};
ghost use Rattle.graph.specs.Counting.{bit};
ghost use Rattle.graph.specs.Lists.{table};
ghost use Rattle.sparse.specs.Buffers.{zeroed, filled};
ghost use Rattle.sparse.specs.Columns.{columns};
ghost use Rattle.sparse.specs.Parts.{ZeroBelow};
ghost use Rattle.sparse.specs.Refusals.{one_short, Roomy};
ghost use Rattle.matching.specs.Matching.{Verdict, matching};
ghost use Rattle.matching.specs.Outcome.{Lent, lent_by, buffers, matching_need, cleared, handed_out, tested, outcome, ended, Means};
ghost use Rattle.matching.specs.Parts.{Fresh, EndsAt, SameBeyond};
ghost use Rattle.matching.specs.Work.{holding, SameSlices, SameWork};

use super::search::{SearchWork, search};
use sparse::checks::{any_short, check_early, check_repeats};
use sparse::slices::{clear, fill, get, put};
use sparse::{Column, EditedMat, NONE, Refusal, SquareMat};

// How many numbers the matching needs of each of its two workspace slices.
pub fn matching_need(size: u32) -> u32
    ensures { result ≡ matching_need size }
{
    size
}

// Whether a buffer is shorter than its need.
fn lacks_room(size: u32, work: &SearchWork, row2col: &[u32], hall: &[u32]) -> bool
    ensures { result ≡ one_short (buffers size (lent_by work.now row2col.now hall.now)) }
{
    let need = matching_need(size) as usize;
    let size = size as usize;
    any_short(&[
        (work.visited.len(), need),
        (work.cheap.len(), need),
        (work.scol.len(), size),
        (work.sat.len(), size),
        (row2col.len(), size),
        (hall.len(), size),
    ])
}

// A search from each column in turn: the first column whose search failed, if one did. A stamp of its own tells each search's visits
// from earlier ones, so nothing is cleared between two.
fn match_columns(mat: &SquareMat, work: &mut SearchWork, row2col: &mut [u32]) -> Option<Column>
    requires { Fresh mat.now.mat.size work.old row2col.old }
    ensures ends_at { EndsAt mat.now.mat.size work.new.visited.now row2col.new result
        (matching mat.now.mat.size (columns mat.now.mat)) }
    ensures same_beyond { SameBeyond mat.now.mat.size row2col.old row2col.new }
    ensures same_work { SameWork mat.now.mat.size work.old work.new }
{
    let unedited = EditedMat {
        mat: mat.mat,
        edit: None,
    };
    for c in 0..mat.mat.size {
        let col = Column(c);
        if !search(&unedited, col, c + 1, work, row2col) {
            return Some(col);
        }
    }
    None
}

// Marks the columns that have a stamp, and no others.
pub fn mark_hall(size: u32, visited: &[u32], stamp: u32, hall: &mut [u32])
    requires { (size ≤ length visited.now) × (size ≤ length hall.old) }
    ensures { hall.new ≡ filled (table (λ c. bit (eqb (get_or visited.now c 0) stamp)) size) hall.old }
{
    for c in 0..size {
        let col = Column(c);
        let last = get::<Column, u32>(visited, col);
        put::<Column, u32>(hall, col, u32::from(last == stamp));
    }
}

// The answer, and both outputs, from the column whose search failed, if one did.
fn hand_out(
    size: u32,
    failed: Option<Column>,
    work: &SearchWork,
    row2col: &mut [u32],
    hall: &mut [u32],
) -> Result<(), Refusal>
    requires below { IfSome failed (λ c. c.0 < size) }
    requires roomy { (size ≤ length work.now.visited.now) × (size ≤ length row2col.old) × (size ≤ length hall.old) }
    ensures { (l : Lent) (v : Verdict) → EndsAt size work.now.visited.now row2col.old failed v
        → SameBeyond size l.row2col row2col.old → hall.old ≡ l.hall
        → ended result (cleared size l row2col.new hall.new) ≡ handed_out size l v }
{
    if let Some(c) = failed {
        clear(row2col, size);
        mark_hall(size, work.visited, c.0 + 1, hall);
        return Err(Refusal::Unmatchable(c));
    }
    clear(hall, size);
    Ok(())
}

// The matching of a valid matrix, over stamps that are zero. What the workspace holds afterwards is the caller's to clear.
pub fn match_valid(
    mat: &SquareMat,
    work: &mut SearchWork,
    row2col: &mut [u32],
    hall: &mut [u32],
) -> Result<(), Refusal>
    requires roomy { Roomy (buffers mat.now.mat.size (lent_by work.old row2col.old hall.old)) }
    requires unmarked { ZeroBelow mat.now.mat.size work.old.visited.now }
    ensures hall_after { (l : Lent) → l.row2col ≡ row2col.old → l.hall ≡ hall.old
        → ended result (cleared mat.now.mat.size l row2col.new hall.new)
        ≡ handed_out mat.now.mat.size l (matching mat.now.mat.size (columns mat.now.mat)) }
    ensures same_work { SameWork mat.now.mat.size work.old work.new }
{
    let size = mat.mat.size;
    clear(work.cheap, size);
    fill(row2col, size, NONE);
    let failed = match_columns(mat, work, row2col);
    hand_out(size, failed, work, row2col, hall)
}

// Refusal 4, for which the stamps serve as marks, and then the matching.
fn match_tested(
    mat: &SquareMat,
    work: &mut SearchWork,
    row2col: &mut [u32],
    hall: &mut [u32],
) -> Result<(), Refusal>
    requires roomy { Roomy (buffers mat.now.mat.size (lent_by work.old row2col.old hall.old)) }
    requires unmarked { ZeroBelow mat.now.mat.size work.old.visited.now }
    ensures hall_after { (l : Lent) → l.row2col ≡ row2col.old → l.hall ≡ hall.old
        → ended result (cleared mat.now.mat.size l row2col.new hall.new)
        ≡ tested mat.now.mat.size mat.now.mat.starts.now mat.now.mat.rows.now l }
    ensures same_work { SameWork mat.now.mat.size work.old work.new }
{
    check_repeats(mat, work.visited)?;
    match_valid(mat, work, row2col, hall)
}

// The workspace and the stack become zero over their needs.
fn clear_work(size: u32, work: &mut SearchWork)
    requires { (size ≤ length work.old.visited.now) × (size ≤ length work.old.cheap.now) × (size ≤ length work.old.scol.now)
        × (size ≤ length work.old.sat.now) }
    ensures { work.new ≡ holding work.old (zeroed (matching_need size) work.old.visited.now)
        (zeroed (matching_need size) work.old.cheap.now) (zeroed size work.old.scol.now) (zeroed size work.old.sat.now) }
{
    let need = matching_need(size);
    clear(work.visited, need);
    clear(work.cheap, need);
    clear(work.scol, size);
    clear(work.sat, size);
}

// A row for each column of a matrix, as the column of each row; or the first refusal of the table, 9 with the marks of a Hall set.
pub fn find_diag_matching(
    size: u32,
    starts: &[u32],
    rows: &[u32],
    work: &mut SearchWork,
    row2col: &mut [u32],
    hall: &mut [u32],
) -> Result<(), Refusal>
    ensures outcome { ended result (lent_by work.new row2col.new hall.new)
        ≡ outcome size starts.now rows.now (lent_by work.old row2col.old hall.old) }
    ensures meaning { Means size starts.now rows.now (lent_by work.old row2col.old hall.old)
        (lent_by work.new row2col.new hall.new) result }
    ensures same_slices { SameSlices work.old work.new }
{
    let short = lacks_room(size, work, row2col, hall);
    let mat = check_early(size, starts, rows, short)?;
    clear(work.visited, size);
    let answer = match_tested(&mat, work, row2col, hall);
    clear_work(size, work);
    answer
}
