// What a case of every kind begins with: size, entries, the starts, the rows.
ghost use Rattle.std.specs.Prelude.{◌≡◌, ◌≤◌, length};
ghost use Rattle.replay.specs.Lists.{Fewer};

use super::lists::Numbers;

// The program's own limits.
pub const MAX_SIZE: u32 = 64;

pub const MAX_ENTRIES: u32 = 4096;

// A pattern within the program's limits.
#[derive(Clone, Copy)]
pub struct Pattern<'a> {
    pub size: u32,
    pub starts: &'a [u32],
    pub rows: &'a [u32],
    ghost small: { (size ≤ 64) × (length rows.now ≤ 4096) },
}

impl<'a> Pattern<'a> {
    pub fn read(numbers: &mut Numbers<'a>) -> Option<Pattern<'a>>
        ensures { Fewer numbers.old numbers.new }
    {
        let size = numbers.number_within(MAX_SIZE)?;
        let entries = numbers.number_within(MAX_ENTRIES)?;
        let starts = numbers.list(size as usize + 1)?;
        let rows = numbers.list(entries as usize)?;
        Some(Pattern { size, starts, rows })
    }

    // How many numbers a list by columns has.
    pub fn columns(&self) -> usize
        ensures { result ≡ self.now.size }
    {
        self.size as usize
    }
}
