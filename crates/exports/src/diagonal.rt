// The matching of rows to columns, for C.
ghost use Rattle.std.specs.Prelude.{◌≡◌};
ghost use Rattle.sparse.specs.Refusals.{number_of, place_of};
ghost use Rattle.matching.specs.Outcome.{lent, outcome};

use matching::SearchWork;
use sparse::refusal::number_and_place;

// matching::find_diag_matching.
#[unsafe(no_mangle)]
pub extern "C" fn dechvorim_find_diag_matching(
    size: u32,
    starts: &[u32],
    rows: &[u32],
    visited: &mut [u32],
    cheap: &mut [u32],
    scol: &mut [u32],
    sat: &mut [u32],
    row2col: &mut [u32],
    hall: &mut [u32],
    place: &mut u32,
) -> u32
    ensures number { result ≡ number_of (outcome size starts.now rows.now
        (lent visited.old cheap.old scol.old sat.old
        row2col.old hall.old)).answer }
    ensures place { place.new ≡ place_of (outcome size starts.now rows.now
        (lent visited.old cheap.old scol.old sat.old
        row2col.old hall.old)).answer }
    ensures buffers { lent visited.new cheap.new scol.new sat.new
        row2col.new hall.new
        ≡ (outcome size starts.now rows.now
        (lent visited.old cheap.old scol.old sat.old
        row2col.old hall.old)).after }
{
    let mut work = SearchWork {
        visited,
        cheap,
        scol,
        sat,
    };
    let answer = matching::find_diag_matching(size, starts, rows, &mut work, row2col, hall);
    let (number, at) = number_and_place(&answer);
    *place = at;
    number
}
