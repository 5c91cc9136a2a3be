// The block triangular form, for C. The number of blocks crosses beside the place.
ghost use Rattle.std.specs.Prelude.{◌≡◌};
ghost use Rattle.sparse.specs.Refusals.{number_of, place_of};
ghost use Rattle.triangular.specs.Outcome.{lent, work, outputs, outcome, count_of};

use sparse::refusal::number_and_place;
use triangular::{FormOutputs, FormWork};

// triangular::find_block_diag_form.
#[unsafe(no_mangle)]
pub extern "C" fn dechvorim_find_block_diag_form(
    size: u32,
    starts: &[u32],
    rows: &[u32],
    visited: &mut [u32],
    cheap: &mut [u32],
    finished: &mut [u32],
    col2row: &mut [u32],
    backstarts: &mut [u32],
    backrows: &mut [u32],
    scol: &mut [u32],
    sat: &mut [u32],
    row2col: &mut [u32],
    hall: &mut [u32],
    blockcols: &mut [u32],
    blockstarts: &mut [u32],
    place: &mut u32,
    count: &mut u32,
) -> u32
    ensures number { result ≡ number_of (outcome size starts.now rows.now
        (lent (work visited.old cheap.old finished.old col2row.old
        backstarts.old backrows.old scol.old sat.old)
        (outputs row2col.old hall.old blockcols.old blockstarts.old))).answer }
    ensures place { place.new ≡ place_of (outcome size starts.now rows.now
        (lent (work visited.old cheap.old finished.old col2row.old
        backstarts.old backrows.old scol.old sat.old)
        (outputs row2col.old hall.old blockcols.old blockstarts.old))).answer }
    ensures count { count.new ≡ count_of (outcome size starts.now rows.now
        (lent (work visited.old cheap.old finished.old col2row.old
        backstarts.old backrows.old scol.old sat.old)
        (outputs row2col.old hall.old blockcols.old blockstarts.old))).answer }
    ensures buffers { lent (work visited.new cheap.new finished.new col2row.new
        backstarts.new backrows.new scol.new sat.new)
        (outputs row2col.new hall.new blockcols.new blockstarts.new)
        ≡ (outcome size starts.now rows.now
        (lent (work visited.old cheap.old finished.old col2row.old
        backstarts.old backrows.old scol.old sat.old)
        (outputs row2col.old hall.old blockcols.old blockstarts.old))).after }
{
    let mut work = FormWork {
        visited,
        cheap,
        finished,
        col2row,
        backstarts,
        backrows,
        scol,
        sat,
    };
    let mut outputs = FormOutputs {
        row2col,
        hall,
        blockcols,
        blockstarts,
    };
    let answer = triangular::find_block_diag_form(size, starts, rows, &mut work, &mut outputs);
    let (number, at) = number_and_place(&answer);
    *place = at;
    *count = answer.unwrap_or(0);
    number
}
