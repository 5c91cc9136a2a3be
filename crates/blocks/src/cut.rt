// The two passes over all columns that make the block form: the first finishes the columns, the second cuts them into blocks.
ghost use Rattle.std.specs.Prelude.{◌≡◌, ◌≢◌, [], ◌+◌, ◌≤◌, ◌<◌, length, get_or, MatchOption, unwrap_or};
ghost use Rattle.graph.specs.Blocks.{targets, cut};
ghost use Rattle.sparse.specs.Columns.{columns, edited_columns};
ghost use Rattle.blocks.specs.Walk.{last_first, Stamped, WalkReady, WalkEnds, SameFrom};
ghost use Rattle.blocks.specs.Cut.{first_pass, second_pass, PassReady, Finished, CutReady, HoldsBlocks};

use super::walk::{WalkWork, walk};
use sparse::slices::{clear, get, put};
use sparse::{Column, EditedMat, SparseMat};

// The stamp of the columns that the first pass walked.
const FIRST_PASS: u32 = 1;
// The stamp of the columns that the second pass walked.
const SECOND_PASS: u32 = 2;

// Walks from a column unless it was walked before. Returns how many columns were walked if it did.
fn walk_new(
    mat: &EditedMat,
    row2col: &[u32],
    start: Column,
    mark: u32,
    at: u32,
    work: &mut WalkWork,
) -> Option<u32>
    requires start_lt_size { (start.0 < mat.now.mat.size) × (mat.now.mat.size ≤ length work.old.visited.now)
        × Stamped mat.now.mat.size mark work.old.visited.now (last_first work.old.entered.now at) }
    requires walk_ready { get_or work.old.visited.now start.0 0 ≢ mark
        → WalkReady mat.now.mat.size (edited_columns mat.now) row2col.now start.0 mark at work.old }
    ensures walked { MatchOption result (get_or work.old.visited.now start.0 0 ≡ mark)
        (λ _. get_or work.old.visited.now start.0 0 ≢ mark) }
    ensures walk_ends { WalkEnds mat.now.mat.size (edited_columns mat.now) row2col.now start.0 mark at work.old work.new
        (unwrap_or result at) }
    ensures same_from { SameFrom mat.now.mat.size work.old work.new }
{
    if work.stamp(start) == mark {
        return None;
    }
    Some(walk(mat, row2col, start, mark, at, work))
}

// The first pass: a walk from each column in turn that was not walked yet, so that the columns are noted as they are finished.
pub fn finish_columns(mat: &EditedMat, row2col: &[u32], work: &mut WalkWork)
    requires { PassReady mat.now.mat.size (edited_columns mat.now) row2col.now first_pass work.old }
    ensures finished { Finished mat.now.mat.size (edited_columns mat.now) row2col.now work.new.visited.now work.new.finished.now }
    ensures same_from { SameFrom mat.now.mat.size work.old work.new }
{
    let mut count = 0u32;
    for c in 0..mat.mat.size {
        count = walk_new(mat, row2col, Column(c), FIRST_PASS, count, work).unwrap_or(count);
    }
}

// The second pass: a walk from each column that was not walked yet, last finished first, is a block. Returns how many blocks there are.
// What its walks finish is not needed again.
pub fn cut_blocks(
    mat: &SparseMat,
    row2col: &[u32],
    finished: &[u32],
    work: &mut WalkWork,
    blockstarts: &mut [u32],
) -> u32
    requires pass_ready { PassReady mat.now.size (columns mat.now) row2col.now second_pass work.old }
    requires cut_ready { CutReady mat.now.size finished.now blockstarts.old }
    ensures holds_blocks { HoldsBlocks mat.now.size (cut (targets (columns mat.now) row2col.now) mat.now.size []
        (last_first finished.now mat.now.size)) work.old.entered.now blockstarts.old work.new.entered.now blockstarts.new result }
    ensures same_from { SameFrom mat.now.size work.old work.new }
{
    let size = mat.size;
    let mat = EditedMat {
        mat: *mat,
        edit: None,
    };
    clear(blockstarts, size + 1);
    let mut blocks = 0u32;
    let mut count = 0u32;
    for i in (0..size).rev() {
        let c = get::<u32, Column>(finished, i);
        let Some(end) = walk_new(&mat, row2col, c, SECOND_PASS, count, work) else {
            continue;
        };
        put::<u32, u32>(blockstarts, blocks + 1, end);
        blocks += 1;
        count = end;
    }
    blocks
}
