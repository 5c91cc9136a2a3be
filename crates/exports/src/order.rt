// The order of columns, for C.
ghost use Rattle.std.specs.Prelude.{◌≡◌};
ghost use Rattle.sparse.specs.Refusals.{number_of, place_of};
ghost use Rattle.ordering.specs.Order.{lent, outcome};

use ordering::OrderBuffers;
use sparse::refusal::number_and_place;

// ordering::order_simple.
#[unsafe(no_mangle)]
pub extern "C" fn dechvorim_order_simple(
    size: u32,
    starts: &[u32],
    rows: &[u32],
    score2head: &mut [u32],
    prev: &mut [u32],
    next: &mut [u32],
    marks: &mut [u32],
    new2orig: &mut [u32],
    orig2new: &mut [u32],
    place: &mut u32,
) -> u32
    ensures number { result ≡ number_of (outcome size starts.now rows.now
        (lent score2head.old prev.old next.old marks.old new2orig.old
        orig2new.old)).answer }
    ensures place { place.new ≡ place_of (outcome size starts.now rows.now
        (lent score2head.old prev.old next.old marks.old new2orig.old
        orig2new.old)).answer }
    ensures buffers { lent score2head.new prev.new next.new marks.new new2orig.new
        orig2new.new ≡ (outcome size starts.now rows.now
        (lent score2head.old prev.old next.old marks.old new2orig.old
        orig2new.old)).after }
{
    let mut buffers = OrderBuffers {
        score2head,
        prev,
        next,
        marks,
        new2orig,
        orig2new,
    };
    let answer = ordering::order_simple(size, starts, rows, &mut buffers);
    let (number, at) = number_and_place(&answer);
    *place = at;
    number
}
