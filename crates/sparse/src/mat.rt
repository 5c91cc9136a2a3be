// A matrix in its storage, as the Rust's SparseMat holds it: n + 1 column starts, and the rows column by column, both lent.
ghost use Rattle.std.specs.Prelude.{◌≡◌, ◌<◌, None};
ghost use Rattle.sparse.specs.Matrix.{RowsBelow, Shaped, width};

use super::Column;
use super::slices::get;

// Columns of rows, whose starts divide them as refusals 1 and 2 demand. The starts are lent for a time of their own: a column of rows
// does not hold them.
#[derive(Clone, Copy)]
pub struct SparseMat<'s, 'a> {
    pub size: u32,
    pub starts: &'s [u32],
    pub rows: &'a [u32],
    pub ghost shaped: { Shaped size starts.now rows.now },
}

// One whose rows are below n too, as refusal 3 demands.
#[derive(Clone, Copy)]
pub struct SquareMat<'s, 'a> {
    pub mat: SparseMat<'s, 'a>,
    pub ghost below: { RowsBelow mat.rows.now mat.size },
}

// The rows that take the place of a column's own.
#[derive(Clone, Copy)]
pub struct Edit<'a> {
    pub column: Column,
    pub rows: &'a [u32],
}

// A matrix with one column replaced, or none.
#[derive(Clone, Copy)]
pub struct EditedMat<'s, 'a> {
    pub mat: SparseMat<'s, 'a>,
    pub edit: Option<Edit<'a>>,
}

impl<'s, 'a> SparseMat<'s, 'a> {
    ghost use Rattle.sparse.specs.Columns.{columns};

    // How many rows a column has.
    pub fn col_len(&self, c: Column) -> u32
        requires { c.0 < self.now.size }
        ensures { result ≡ width self.now.starts.now c.0 }
    {
        let lo = get::<Column, u32>(self.starts, c);
        let hi = get::<u32, u32>(self.starts, c.0 + 1);
        hi - lo
    }

    // The rows of a column, as a part of the matrix's rows.
    pub fn col_rows(&self, c: Column) -> &'a [u32]
        requires { c.0 < self.now.size }
        ensures { result.now ≡ columns self.now c.0 }
    {
        let lo = get::<Column, u32>(self.starts, c);
        let hi = get::<u32, u32>(self.starts, c.0 + 1);
        &self.rows[lo as usize..hi as usize]
    }
}

impl<'s, 'a> SparseMat<'s, 'a> {
    // The matrix with no column replaced.
    pub fn unedited(self) -> EditedMat<'s, 'a>
        ensures { (result.mat ≡ self.entry) × (result.edit ≡ None) }
    {
        EditedMat {
            mat: self,
            edit: None,
        }
    }
}

impl<'s, 'a> EditedMat<'s, 'a> {
    ghost use Rattle.sparse.specs.Columns.{edited_columns};

    // The rows of a column: a part of the matrix's rows, or the replacement where it is the edited column.
    pub fn col_rows(&self, c: Column) -> &'a [u32]
        requires { c.0 < self.now.mat.size }
        ensures { result.now ≡ edited_columns self.now c.0 }
    {
        if let Some(edit) = self.edit
            && edit.column == c
        {
            return edit.rows;
        }
        self.mat.col_rows(c)
    }
}
