// The checks of an edit, in the table's order. Each equals its row of the table, for any slices that the checks before it let through.
ghost use Rattle.std.specs.Prelude.{◌≡◌, ◌≤◌, ◌<◌, ◌||◌, not, leb, eqb, length, get_or};
ghost use Rattle.graph.specs.Lists.{elem};
ghost use Rattle.graph.specs.Permutations.{inverse};
ghost use Rattle.sparse.specs.Buffers.{filled};
ghost use Rattle.sparse.specs.Columns.{columns};
ghost use Rattle.sparse.specs.Limits.{none};
ghost use Rattle.sparse.specs.Parts.{ZeroBelow};
ghost use Rattle.sparse.specs.Refusals.{passed, first_refusal};
ghost use Rattle.matching.specs.Parts.{SameBeyond};
ghost use Rattle.rematching.specs.Checks.{column_outside, unfit_row, mismatched_row, grown_too_large, late};

use sparse::checks::check_repeats;
use sparse::slices::{fill, get, put};
use sparse::{Column, Edit, MAX_ENTRIES, NONE, OriginalRow, Refusal, SparseMat, SquareMat};

// Refusal 13.
pub fn check_column(size: u32, edited: Column) -> Result<(), Refusal>
    ensures { result ≡ column_outside size edited.0 }
{
    Refusal::ColumnOutside.when(size <= edited.0)
}

// Whether a row is not below n or has a mark.
fn is_unfit(size: u32, row: OriginalRow, marks: &[u32]) -> bool
    requires { size ≤ length marks.now }
    ensures { result ≡ (leb size row.0 || not (eqb (get_or marks.now row.0 0) 0)) }
{
    size <= row.0 || get::<OriginalRow, u32>(marks, row) != 0
}

// Refusal 14, with marks for the rows that are zero; those of the rows that passed are left. Among any n + 1 rows one is not below n or
// stands before, so the search is short for a replacement of any length.
pub fn check_replacement(size: u32, replacement: &[u32], marks: &mut [u32]) -> Result<(), Refusal>
    requires { (size ≤ length marks.old) × ZeroBelow size marks.old }
    ensures value { result ≡ unfit_row size replacement.now }
    ensures same_beyond { SameBeyond size marks.old marks.new }
{
    for (k, row) in replacement.iter().enumerate() {
        let row = OriginalRow(*row);
        if is_unfit(size, row, marks) {
            return Err(Refusal::UnfitRow(k as u32));
        }
        put::<OriginalRow, u32>(marks, row, 1);
    }
    Ok(())
}

// Whether a column has an entry in a row. It stops at the first: `contains` compares in groups, which costs more where columns are short.
fn has_row(mat: &SparseMat, c: Column, row: OriginalRow) -> bool
    requires { c.0 < mat.now.size }
    ensures { result ≡ elem row.0 (columns mat.now c.0) }
{
    mat.col_rows(c).iter().any(|r| OriginalRow(*r) == row)
}

// Whether a row's column is not below n, has a row already, or lacks this one.
fn is_mismatched(mat: &SparseMat, col2row: &[u32], c: Column, row: OriginalRow) -> bool
    requires { mat.now.size ≤ length col2row.now }
    ensures { result ≡ (leb mat.now.size c.0 || not (eqb (get_or col2row.now c.0 0) none)
        || not (elem row.0 (columns mat.now c.0))) }
{
    mat.size <= c.0 || get::<Column, u32>(col2row, c) != NONE || !has_row(mat, c, row)
}

// Refusal 15. Where it passes, col2row has the row of each column.
pub fn check_matching(mat: &SparseMat, row2col: &[u32], col2row: &mut [u32]) -> Result<(), Refusal>
    requires { (mat.now.size ≤ length row2col.now) × (mat.now.size ≤ length col2row.old) }
    ensures value { result ≡ mismatched_row mat.now.size (columns mat.now) row2col.now }
    ensures same_beyond { SameBeyond mat.now.size col2row.old col2row.new }
    ensures col2row_after { result ≡ passed → col2row.new ≡ filled (inverse mat.now.size row2col.now) col2row.old }
{
    fill(col2row, mat.size, NONE);
    for r in 0..mat.size {
        let row = OriginalRow(r);
        let c = get::<OriginalRow, Column>(row2col, row);
        if is_mismatched(mat, col2row, c, row) {
            return Err(Refusal::MismatchedRow(row));
        }
        put::<Column, OriginalRow>(col2row, c, row);
    }
    Ok(())
}

// Refusal 1 once more, of the edited matrix.
pub fn check_growth(mat: &SparseMat, edit: &Edit) -> Result<(), Refusal>
    requires { (edit.now.column.0 < mat.now.size) × (length edit.now.rows.now ≤ mat.now.size) }
    ensures { result ≡ grown_too_large mat.now.starts.now mat.now.rows.now edit.now.column.0 edit.now.rows.now }
{
    let kept = mat.rows.len() as u32 - mat.col_len(edit.column);
    Refusal::TooLarge.when(MAX_ENTRIES < kept + edit.rows.len() as u32)
}

// Refusals 4, 13, 14, 15 and the late 1. Where they pass, col2row has the row of each column.
pub fn check_edit(
    mat: &SquareMat,
    edit: &Edit,
    row2col: &[u32],
    visited: &mut [u32],
    col2row: &mut [u32],
) -> Result<(), Refusal>
    requires size_in_bounds { (mat.now.mat.size ≤ length visited.old) × ZeroBelow mat.now.mat.size visited.old }
    requires matching_in_bounds { (mat.now.mat.size ≤ length row2col.now) × (mat.now.mat.size ≤ length col2row.old) }
    ensures value { result ≡ first_refusal (late mat.now.mat.size mat.now.mat.starts.now mat.now.mat.rows.now edit.now.column.0
        edit.now.rows.now row2col.now) }
    ensures same_beyond { SameBeyond mat.now.mat.size visited.old visited.new
        × SameBeyond mat.now.mat.size col2row.old col2row.new }
    ensures col2row_after { result ≡ passed → col2row.new ≡ filled (inverse mat.now.mat.size row2col.now) col2row.old }
{
    let size = mat.mat.size;
    check_repeats(mat, visited)?;
    check_column(size, edit.column)?;
    check_replacement(size, edit.rows, visited)?;
    check_matching(&mat.mat, row2col, col2row)?;
    check_growth(&mat.mat, edit)
}
