// One search of the matching: from a column without a row, along rows and the columns that have them, to a free row.
ghost use Rattle.std.specs.Prelude.{◌≡◌, ◌≢◌, ℕ, ◌+◌, ◌≤◌, ◌<◌, max, length, get_or, unwrap_or, IfSome};
ghost use Rattle.sparse.specs.Columns.{edited_columns};
ghost use Rattle.sparse.specs.Limits.{max_size, max_entries};
ghost use Rattle.sparse.specs.Matrix.{RowsBelow};
ghost use Rattle.matching.specs.Search.{SearchReady, SearchEnds};
ghost use Rattle.matching.specs.Parts.{col_at, OpenPlace, Advance};
ghost use Rattle.matching.specs.Work.{SameWork};

use sparse::slices::{get, put};
use sparse::{Column, EditedMat, OriginalRow};

// What a search works in: by column the stamp of its last visit and its cheap place, and the stack's columns and places.
#[derive(Drop)]
pub struct SearchWork<'a> {
    pub visited: &'a mut [u32],
    pub cheap: &'a mut [u32],
    pub scol: &'a mut [u32],
    pub sat: &'a mut [u32],
}

// The column that has the row at a place.
fn col_at(col: &[u32], row2col: &[u32], k: u32) -> Column
    requires { (k < length col.now) × RowsBelow col.now (length row2col.now) }
    ensures { result.0 ≡ col_at row2col.now col.now k }
{
    let r = get::<u32, OriginalRow>(col, k);
    get::<OriginalRow, Column>(row2col, r)
}

// The first place of a column's rows, from a place on, whose row's column is not visited, if there is one.
pub fn scan_next(col: &[u32], row2col: &[u32], visited: &[u32], mark: u32, from: u32) -> Option<u32>
    requires col_len_bound { (length col.now ≤ max_entries) × RowsBelow col.now (length row2col.now) }
    requires by_index { (k : ℕ) → k < length col.now → col_at row2col.now col.now k < length visited.now }
    ensures open_place { OpenPlace mark visited.now row2col.now col.now from (unwrap_or result (max from (length col.now))) }
    ensures within { IfSome result (λ k. k < length col.now) }
{
    for k in from..col.len() as u32 {
        let stamp = get::<Column, u32>(visited, col_at(col, row2col, k));
        if stamp != mark {
            return Some(k);
        }
    }
    None
}

// Goes on from the step on top, whose rows from a place on are to be scanned: the first column that is not visited is put on the stack,
// or the step is taken off. Returns the stack's depth.
pub fn advance(
    col: &[u32],
    row2col: &[u32],
    visited: &[u32],
    mark: u32,
    top: u32,
    from: u32,
    scol: &mut [u32],
    sat: &mut [u32],
) -> u32
    requires col_len_bound { (length col.now ≤ max_entries) × RowsBelow col.now (length row2col.now) }
    requires by_index { (k : ℕ) → k < length col.now → col_at row2col.now col.now k < length visited.now }
    requires top_lt_max_size { (top < max_size) × (top < length sat.old) × ((k : ℕ) → k < length col.now
        → get_or visited.now (col_at row2col.now col.now k) 0 ≢ mark → top + 1 < length scol.old) }
    ensures { Advance mark visited.now row2col.now col.now top from
        scol.old sat.old scol.new sat.new result }
{
    let Some(next) = scan_next(col, row2col, visited, mark, from) else {
        return top;
    };
    put::<u32, u32>(sat, top, next);
    put::<u32, Column>(scol, top + 1, col_at(col, row2col, next));
    top + 2
}

// One search from a column that has no row: whether it found a path to a free row, along which the matching is then moved.
pub fn search(
    mat: &EditedMat,
    start: Column,
    mark: u32,
    work: &mut SearchWork,
    row2col: &mut [u32],
) -> bool
    requires { SearchReady mat.now.mat.size (edited_columns mat.now) row2col.old start.0 mark work.old }
    ensures search_ends { SearchEnds mat.now.mat.size (edited_columns mat.now) row2col.old start.0 mark
        work.old work.new row2col.new result }
    ensures same_work { SameWork mat.now.mat.size work.old work.new }
{
    // Copies, so that no step reads them through a reference.
    let mat = *mat;
    let visited = &mut *work.visited;
    let cheap = &mut *work.cheap;
    let scol = &mut *work.scol;
    let sat = &mut *work.sat;
    let size = mat.mat.size;
    let mut found = false;
    let mut depth = 1u32;
    put::<u32, Column>(scol, 0, start);
    'dfs_loop: while 0 < depth {
        let top = depth - 1;
        let c = get::<u32, Column>(scol, top);
        let col = mat.col_rows(c);
        let stamp = get::<Column, u32>(visited, c);
        if stamp != mark {
            put::<Column, u32>(visited, c, mark);
            // A matched row stays matched, so the scan for a free one starts where this column's last scan stopped.
            let from = get::<Column, u32>(cheap, c);
            let len = col.len() as u32;
            for k in from..len {
                let r = get::<u32, OriginalRow>(col, k);
                let owner = get::<OriginalRow, Column>(row2col, r);
                if size <= owner.0 {
                    put::<Column, u32>(cheap, c, k);
                    put::<OriginalRow, Column>(row2col, r, c);
                    found = true;
                    depth = top;
                    continue 'dfs_loop;
                }
            }
            put::<Column, u32>(cheap, c, len.max(from));
            depth = advance(col, row2col, visited, mark, top, 0, scol, sat);
        } else if found {
            let at = get::<u32, u32>(sat, top);
            let row = get::<u32, OriginalRow>(col, at);
            put::<OriginalRow, Column>(row2col, row, c);
            depth = top;
        } else {
            let at = get::<u32, u32>(sat, top);
            depth = advance(col, row2col, visited, mark, top, at + 1, scol, sat);
        }
    }
    found
}
