// The blocks of a matrix under a perfect matching: the first pass, the graph reversed, and the second pass over it.
ghost use Rattle.std.specs.Prelude.{[], ◌+◌, ◌≤◌, ◌<◌, length, get_or, take};
ghost use Rattle.graph.specs.Blocks.{targets, blocks, cut};
ghost use Rattle.sparse.specs.Columns.{edited_columns};
ghost use Rattle.sparse.specs.Limits.{max_entries};
ghost use Rattle.sparse.specs.Matrix.{column, Shaped};
ghost use Rattle.sparse.specs.Refusals.{Roomy};
ghost use Rattle.blocks.specs.Walk.{last_first, SameFrom};
ghost use Rattle.blocks.specs.Reverse.{entries, Reversible};
ghost use Rattle.blocks.specs.Cut.{second_pass, PassReady, CutReady, HoldsBlocks};
ghost use Rattle.triangular.specs.Outcome.{form_need, starts_need, work_buffers, held_work};
ghost use Rattle.triangular.specs.Parts.{SameWork, SameSlices};

use super::form::FormWork;
use blocks::cut::{cut_blocks, finish_columns};
use blocks::matched::MatchedMat;
use blocks::reverse::reverse_graph;
use blocks::walk::WalkWork;
use sparse::slices::{clear, get, invert};
use sparse::{Column, EditedMat, OriginalRow, SparseMat};

// The second pass over the reversed graph, which fills the front of its two slices.
fn cut_matched(
    size: u32,
    backstarts: &[u32],
    backrows: &[u32],
    row2col: &[u32],
    finished: &[u32],
    work: &mut WalkWork,
    blockstarts: &mut [u32],
) -> u32
    requires size_in_bounds { (size < length backstarts.now) × (get_or backstarts.now size 0 ≤ length backrows.now)
        × Shaped size (take (size + 1) backstarts.now) (take (get_or backstarts.now size 0) backrows.now) }
    requires pass_ready { PassReady size (column (take (size + 1) backstarts.now) (take (get_or backstarts.now size 0) backrows.now))
        row2col.now second_pass work.old }
    requires cut_ready { CutReady size finished.now blockstarts.old }
    ensures holds_blocks { HoldsBlocks size (cut (targets (column (take (size + 1) backstarts.now)
        (take (get_or backstarts.now size 0) backrows.now)) row2col.now) size [] (last_first finished.now size))
        work.old.entered.now blockstarts.old work.new.entered.now blockstarts.new result }
    ensures same_from { SameFrom size work.old work.new }
{
    let end = get::<u32, u32>(backstarts, size);
    let reversed = SparseMat {
        size,
        starts: &backstarts[..size as usize + 1],
        rows: &backrows[..end as usize],
    };
    cut_blocks(&reversed, row2col, finished, work, blockstarts)
}

// The blocks of a matrix under a perfect matching. Returns how many there are. What the workspace holds afterwards is the caller's to
// clear.
pub fn block_matched(
    mat: &EditedMat,
    row2col: &[u32],
    work: &mut FormWork,
    blockcols: &mut [u32],
    blockstarts: &mut [u32],
) -> u32
    requires reversible { Reversible mat.now.mat.size (edited_columns mat.now) row2col.now
        × (entries mat.now.mat.size (edited_columns mat.now) ≤ max_entries) }
    requires roomy { Roomy (work_buffers mat.now.mat.size (entries mat.now.mat.size (edited_columns mat.now))
        (held_work work.old)) }
    requires size_in_bounds { (form_need mat.now.mat.size ≤ length blockcols.old)
        × (starts_need mat.now.mat.size ≤ length blockstarts.old) }
    ensures holds_blocks { HoldsBlocks mat.now.mat.size (blocks mat.now.mat.size (targets (edited_columns mat.now)
        row2col.now)) blockcols.old blockstarts.old blockcols.new blockstarts.new result }
    ensures same_work { SameWork mat.now.mat.size (entries mat.now.mat.size (edited_columns mat.now)) (held_work work.old)
        (held_work work.new) }
    ensures same_slices { SameSlices work.old work.new }
{
    let size = mat.mat.size;
    clear(work.visited, size);
    let mut first = WalkWork {
        visited: &mut *work.visited,
        scol: &mut *work.scol,
        sat: &mut *work.sat,
        entered: &mut *blockcols,
        finished: &mut *work.finished,
    };
    finish_columns(mat, row2col, &mut first);
    // What is read while other slices of its struct are lent has a name of its own.
    let finished = &mut *work.finished;
    let col2row = &mut *work.col2row;
    let backstarts = &mut *work.backstarts;
    let backrows = &mut *work.backrows;
    invert::<OriginalRow, Column>(size, row2col, col2row);
    let matched = MatchedMat { mat: *mat, row2col };
    reverse_graph(&matched, col2row, backstarts, backrows);
    // Nothing asks for the columns that this pass finishes: they go where the matching's cheap places were.
    let mut second = WalkWork {
        visited: &mut *work.visited,
        scol: &mut *work.scol,
        sat: &mut *work.sat,
        entered: &mut *blockcols,
        finished: &mut *work.cheap,
    };
    cut_matched(
        size,
        backstarts,
        backrows,
        row2col,
        finished,
        &mut second,
        blockstarts,
    )
}
