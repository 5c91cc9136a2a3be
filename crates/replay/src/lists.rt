// Reading lists of numbers, and comparing lent buffers with what they are to hold.
ghost use Rattle.std.specs.Prelude.{◌≡◌, ℕ, ◌+◌, ◌≤◌, ◌<◌, ◌↔◌, [], ◌∷◌, ◌++◌, length, get_or, replicate, IsNone, IfSome};
ghost use Rattle.graph.specs.Counting.{some};
ghost use Rattle.replay.specs.Lists.{Fewer, part_of, junk, differs_at};

use super::pattern::{MAX_ENTRIES, MAX_SIZE};
use std::array;

// What stands in a lent buffer before a call: nothing that a call stores.
pub const JUNK: u32 = 3735928559;

// Of each lent buffer something lies beyond the largest size.
pub const LENT: usize = MAX_SIZE as usize + 8;

// The same for a buffer that goes by entries: something lies beyond the most of them and the rows of one more column.
pub const LENT_ENTRIES: usize = MAX_ENTRIES as usize + LENT;

static ZEROS: [u32; LENT_ENTRIES] = [0; LENT_ENTRIES];

// The stored numbers that are not read yet.
#[derive(Drop)]
pub struct Numbers<'a> {
    pub rest: &'a [u32],
}

impl<'a> Numbers<'a> {
    // The next number, or none at the end.
    pub fn number(&mut self) -> Option<u32>
        ensures value { IfSome result (λ n. self.old.rest.now ≡ n ∷ self.new.rest.now) }
        ensures end { IsNone result ↔ (self.old.rest.now ≡ []) }
        ensures fewer { Fewer self.old self.new }
    {
        let (first, rest) = self.rest.split_first()?;
        self.rest = rest;
        Some(*first)
    }

    // The next number, or none where it is over a limit or missing.
    pub fn number_within(&mut self, limit: u32) -> Option<u32>
        ensures value { IfSome result (λ n. n ≤ limit) }
        ensures fewer { Fewer self.old self.new }
    {
        self.number().filter(|n| *n <= limit)
    }

    // So many numbers, or none where they end before.
    pub fn list(&mut self, count: usize) -> Option<&'a [u32]>
        ensures value { IfSome result (λ list. list.now ≡ part_of self.old.rest.now 0 count) }
        ensures rest { IfSome result (λ list. self.old.rest.now ≡ list.now ++ self.new.rest.now) }
        ensures len { IfSome result (λ list. length list.now ≡ count) }
        ensures end { IsNone result ↔ (length self.old.rest.now < count) }
        ensures fewer { Fewer self.old self.new }
    {
        let (list, rest) = self.rest.split_at_checked(count)?;
        self.rest = rest;
        Some(list)
    }
}

// The number that a list has at a place, or junk past its end.
fn number_or_junk(list: &[u32], i: usize) -> u32
    ensures { result ≡ get_or list.now i junk }
{
    list.get(i).copied().unwrap_or(JUNK)
}

// What stands where a call has cleared so many numbers.
pub fn zeros(count: usize) -> &'static [u32]
    requires { count ≤ LENT_ENTRIES }
    ensures { result.now ≡ replicate count 0 }
{
    &ZEROS[..count]
}

// A buffer with a list at its start and junk after that.
pub fn holding(list: &[u32]) -> [u32; LENT]
    ensures { (i : ℕ) → i < 72 → get_or result i 0 ≡ get_or list.now i junk }
{
    array::from_fn(|i| number_or_junk(list, i))
}

// Whether a buffer holds anything but a list at its start and junk after that. It goes through both parts without a branch: nearly
// no buffer does.
pub fn differs(buffer: &[u32], list: &[u32]) -> bool
    ensures { result ≡ some (differs_at buffer.now list.now) (length buffer.now) }
{
    let shared = buffer.len().min(list.len());
    let mut found = false;
    for i in 0..shared {
        found |= buffer[i] != list[i];
    }
    for i in shared..buffer.len() {
        found |= buffer[i] != JUNK;
    }
    found
}

// The same of several buffers that are to hold one list.
pub fn any_differs(buffers: &[&[u32]], list: &[u32]) -> bool {
    buffers.iter().any(|buffer| differs(buffer, list))
}
