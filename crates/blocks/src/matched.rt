// A matrix under a matching of all its rows, which the reversed graph is built from.
ghost use Rattle.sparse.specs.Columns.{edited_columns};
ghost use Rattle.blocks.specs.Reverse.{Reversible};
ghost use Rattle.blocks.specs.Props.{Reversible-prop};

use sparse::EditedMat;

// A matrix within its size, no column with a row twice, and the column that each of its rows is matched with.
#[derive(Clone, Copy)]
pub struct MatchedMat<'s, 'a> {
    pub mat: EditedMat<'s, 'a>,
    pub row2col: &'a [u32],
    pub ghost reversible: { Reversible mat.mat.size (edited_columns mat) row2col.now } by { Reversible-prop },
}
