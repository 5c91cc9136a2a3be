// The depth-first walk from one column, which both walks of the block form make, each over its own graph.
ghost use Rattle.std.specs.Prelude.{◌≡◌, ◌<◌, length, get_or};
ghost use Rattle.sparse.specs.Columns.{edited_columns};
ghost use Rattle.sparse.specs.Limits.{max_size};
ghost use Rattle.blocks.specs.Walk.{WalkReady, WalkEnds, SameFrom};
ghost use Rattle.blocks.specs.Parts.{Leaves};

use matching::search::advance;
use sparse::slices::{get, put};
use sparse::{Column, EditedMat};

// The slices that a walk writes: the stamps of the columns visited, the stack, which is two slices, the column and the place of each
// step, and the columns entered and those finished, one after the other.
#[derive(Drop)]
pub struct WalkWork<'a> {
    pub visited: &'a mut [u32],
    pub scol: &'a mut [u32],
    pub sat: &'a mut [u32],
    pub entered: &'a mut [u32],
    pub finished: &'a mut [u32],
}

impl<'a> WalkWork<'a> {
    // The stamp of a column.
    pub fn stamp(&self, c: Column) -> u32
        requires { c.0 < length self.now.visited.now }
        ensures { result ≡ get_or self.now.visited.now c.0 0 }
    {
        get::<Column, u32>(self.visited, c)
    }
}

// Notes a column as finished if its step was taken off the stack. Returns how many columns are noted.
fn leave(c: Column, depth: u32, top: u32, finished: &mut [u32], count: u32) -> u32
    requires { (count < length finished.old) × (count < max_size) }
    ensures { Leaves c.0 depth top finished.old count finished.new result }
{
    if depth == top {
        put::<u32, Column>(finished, count, c);
        return count + 1;
    }
    count
}

// Walks from a column that is not visited yet: what it enters and what it finishes is added to the columns walked before.
// Returns how many columns were walked.
pub fn walk(
    mat: &EditedMat,
    row2col: &[u32],
    start: Column,
    mark: u32,
    at: u32,
    work: &mut WalkWork,
) -> u32
    requires { WalkReady mat.now.mat.size (edited_columns mat.now) row2col.now start.0 mark at work.old }
    ensures walk_ends { WalkEnds mat.now.mat.size (edited_columns mat.now) row2col.now start.0 mark at work.old work.new result }
    ensures same_from { SameFrom mat.now.mat.size work.old work.new }
{
    // Names of their own for what the steps read and write, so that none goes through a reference.
    let mat = *mat;
    let visited = &mut *work.visited;
    let scol = &mut *work.scol;
    let sat = &mut *work.sat;
    let entered = &mut *work.entered;
    let finished = &mut *work.finished;
    let mut e = at;
    let mut f = at;
    let mut depth = 1u32;
    put::<u32, Column>(scol, 0, start);
    while 0 < depth {
        let top = depth - 1;
        let c = get::<u32, Column>(scol, top);
        let col = mat.col_rows(c);
        let stamp = get::<Column, u32>(visited, c);
        if stamp != mark {
            put::<Column, u32>(visited, c, mark);
            put::<u32, Column>(entered, e, c);
            e += 1;
            depth = advance(col, row2col, visited, mark, top, 0, scol, sat);
            f = leave(c, depth, top, finished, f);
        } else {
            let place = get::<u32, u32>(sat, top);
            let next = place + 1;
            depth = advance(col, row2col, visited, mark, top, next, scol, sat);
            f = leave(c, depth, top, finished, f);
        }
    }
    f
}
