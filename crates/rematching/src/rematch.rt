// The matching after an edit.
ghost use Rattle.std.specs.Prelude.{◌≡◌, take, IsSome};
ghost use Rattle.graph.specs.Edits.{edited, former};
ghost use Rattle.sparse.specs.Columns.{columns};
ghost use Rattle.matching.specs.Parts.{Unused, EndsAt, SameBeyond};
ghost use Rattle.matching.specs.Work.{SameWork};
ghost use Rattle.rematching.specs.Checks.{Editable};
ghost use Rattle.rematching.specs.Rematching.{rematching};

use matching::search::{SearchWork, search};
use sparse::slices::put;
use sparse::{Column, Edit, EditedMat, OriginalRow, SquareMat};

// The one search of an edit: the row that the edited column had becomes free, and a search starts from that column. Returns that column
// if the search failed, and then the matching is as it was.
pub fn rematch(
    mat: &SquareMat,
    edit: &Edit,
    row: OriginalRow,
    work: &mut SearchWork,
    row2col: &mut [u32],
) -> Option<Column>
    requires editable { Editable mat.now.mat.size mat.now.mat.starts.now mat.now.mat.rows.now edit.now.column.0 edit.now.rows.now
        row2col.old }
    requires row_value { row.0 ≡ former mat.now.mat.size row2col.old edit.now.column.0 }
    requires unused { Unused mat.now.mat.size work.old row2col.old }
    ensures ends_at { EndsAt mat.now.mat.size work.new.visited.now row2col.new result
        (rematching mat.now.mat.size (edited (columns mat.now.mat) edit.now.column.0 edit.now.rows.now)
        (take mat.now.mat.size row2col.old) edit.now.column.0) }
    ensures row2col_unchanged { IsSome result → row2col.new ≡ row2col.old }
    ensures same_beyond { SameBeyond mat.now.mat.size row2col.old row2col.new }
    ensures same_work { SameWork mat.now.mat.size work.old work.new }
{
    let c = edit.column;
    let edited = EditedMat {
        mat: mat.mat,
        edit: Some(*edit),
    };
    put::<OriginalRow, Option<Column>>(row2col, row, None);
    if search(&edited, c, c.0 + 1, work, row2col) {
        return None;
    }
    put::<OriginalRow, Column>(row2col, row, c);
    Some(c)
}
