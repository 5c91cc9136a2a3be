// What the cases of all kinds have in common.
ghost use Rattle.replay.specs.Lists.{Fewer};

use super::lists::Numbers;
use super::pattern::Pattern;

// A call that is stored with its answer and what the lent buffers hold afterwards.
pub trait Case<'a>: Drop {
    // What stands behind the pattern.
    fn read_behind(pattern: Pattern<'a>, numbers: &mut Numbers<'a>) -> Option<Self>
        ensures { Fewer numbers.old numbers.new };

    // Whether the call, on buffers that hold junk, does what is stored.
    fn agrees(&self) -> bool;
}

// Whether the next case, of this kind, agrees, or none where it is malformed.
pub fn replay<'a, C: Case<'a>>(numbers: &mut Numbers<'a>) -> Option<bool>
    ensures { Fewer numbers.old numbers.new }
{
    let pattern = Pattern::read(numbers)?;
    let case = C::read_behind(pattern, numbers)?;
    Some(case.agrees())
}
