// The block triangular form: what it is lent, its needs, and the parts of its entry that look at every buffer.
ghost use Rattle.std.specs.Prelude.{◌≡◌, ◌≤◌, length};
ghost use Rattle.sparse.specs.Buffers.{zeroed};
ghost use Rattle.sparse.specs.Refusals.{one_short, Roomy};
ghost use Rattle.triangular.specs.Outcome.{form_need, starts_need, entries_need, work_buffers, buffers};
ghost use Rattle.triangular.specs.Outcome.{held_work, holding_work, held, cleared};

use sparse::checks::any_short;
use sparse::slices::clear;

// The workspace and the stack: by column the stamp of its last visit and its cheap place, the columns as they finish, the row of
// each column, the starts and rows of the reversed graph; and the stack's columns and places.
#[derive(Drop)]
pub struct FormWork<'a> {
    pub visited: &'a mut [u32],
    pub cheap: &'a mut [u32],
    pub finished: &'a mut [u32],
    pub col2row: &'a mut [u32],
    pub backstarts: &'a mut [u32],
    pub backrows: &'a mut [u32],
    pub scol: &'a mut [u32],
    pub sat: &'a mut [u32],
}

// The outputs: the column of each row, the Hall marks, the blocks' columns one after the other, and where each block starts.
#[derive(Drop)]
pub struct FormOutputs<'a> {
    pub row2col: &'a mut [u32],
    pub hall: &'a mut [u32],
    pub blockcols: &'a mut [u32],
    pub blockstarts: &'a mut [u32],
}

// How many numbers are needed of each slice that goes by columns.
pub fn form_need(size: u32) -> u32
    ensures { result ≡ form_need size }
{
    size
}

// How many numbers are needed of each slice that holds starts.
pub fn starts_need(size: u32) -> usize
    ensures { result ≡ starts_need size }
{
    size as usize + 1
}

// How many numbers are needed of the reversed graph's rows.
pub fn entries_need(entries: usize) -> usize
    ensures { result ≡ entries_need entries }
{
    entries
}

// Whether a buffer is shorter than its need, with room asked for so many entries.
pub fn lacks_room(size: u32, entries: usize, work: &FormWork, outputs: &FormOutputs) -> bool
    ensures { result ≡ one_short (buffers size entries (held work.now outputs.now)) }
{
    let need = form_need(size) as usize;
    any_short(&[
        (work.visited.len(), need),
        (work.cheap.len(), need),
        (work.finished.len(), need),
        (work.col2row.len(), need),
        (work.backstarts.len(), starts_need(size)),
        (work.backrows.len(), entries_need(entries)),
        (work.scol.len(), need),
        (work.sat.len(), need),
        (outputs.row2col.len(), need),
        (outputs.hall.len(), need),
        (outputs.blockcols.len(), need),
        (outputs.blockstarts.len(), starts_need(size)),
    ])
}

// The first k numbers become zero, for a count of starts or of entries, which may be more than a number of columns.
fn clear_front(s: &mut [u32], k: usize)
    requires { k ≤ length s.old }
    ensures { s.new ≡ zeroed k s.old }
{
    s[..k].fill(0);
}

// The workspace and the stack become zero over their needs.
pub fn clear_work(size: u32, entries: usize, work: &mut FormWork)
    requires { Roomy (work_buffers size entries (held_work work.old)) }
    ensures { work.new ≡ holding_work work.old (cleared size entries (held_work work.old)) }
{
    let need = form_need(size);
    clear(work.visited, need);
    clear(work.cheap, need);
    clear(work.finished, need);
    clear(work.col2row, need);
    clear_front(work.backstarts, starts_need(size));
    clear_front(work.backrows, entries_need(entries));
    clear(work.scol, need);
    clear(work.sat, need);
}

// The blocks' columns and starts become zero over their needs.
pub fn clear_blocks(size: u32, blockcols: &mut [u32], blockstarts: &mut [u32])
    requires { (form_need size ≤ length blockcols.old) × (starts_need size ≤ length blockstarts.old) }
    ensures blockcols_after { blockcols.new ≡ zeroed (form_need size) blockcols.old }
    ensures blockstarts_after { blockstarts.new ≡ zeroed (starts_need size) blockstarts.old }
{
    clear(blockcols, form_need(size));
    clear_front(blockstarts, starts_need(size));
}
