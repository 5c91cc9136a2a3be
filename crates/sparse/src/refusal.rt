// The refusals of the table.
ghost use Rattle.std.specs.Prelude.{◌≡◌};
ghost use Rattle.sparse.specs.Refusals.{number, place, number_of, place_of, refused_if};

use super::{Column, OriginalRow};

// Why an input is refused, and at which place: an entry position, a position in the replacement, a column, or a row.
#[derive(Clone, Copy, PartialEq, Eq)]
pub enum Refusal {
    TooLarge,
    Misshapen,
    RowOutside(u32),
    RepeatedRow(u32),
    NoRoom,
    EmptyColumn(Column),
    Unmatchable(Column),
    ColumnOutside,
    UnfitRow(u32),
    MismatchedRow(OriginalRow),
}

impl Refusal {
    // The table's number.
    pub fn number(self) -> u32
        ensures { result ≡ number self }
    {
        match self {
            Refusal::TooLarge => 1,
            Refusal::Misshapen => 2,
            Refusal::RowOutside(_) => 3,
            Refusal::RepeatedRow(_) => 4,
            Refusal::NoRoom => 5,
            Refusal::EmptyColumn(_) => 8,
            Refusal::Unmatchable(_) => 9,
            Refusal::ColumnOutside => 13,
            Refusal::UnfitRow(_) => 14,
            Refusal::MismatchedRow(_) => 15,
        }
    }

    // The table's place, 0 for a refusal of the whole.
    pub fn place(self) -> u32
        ensures { result ≡ place self }
    {
        match self {
            Refusal::TooLarge | Refusal::Misshapen | Refusal::NoRoom | Refusal::ColumnOutside => 0,
            Refusal::RowOutside(k) | Refusal::RepeatedRow(k) | Refusal::UnfitRow(k) => k,
            Refusal::EmptyColumn(c) | Refusal::Unmatchable(c) => c.0,
            Refusal::MismatchedRow(r) => r.0,
        }
    }

    // Refused where the test says so.
    pub fn when(self, test: bool) -> Result<(), Refusal>
        ensures { result ≡ refused_if self test }
    {
        if test { Err(self) } else { Ok(()) }
    }
}

// The number and the place of an answer, as it crosses to C: 0 and 0 for acceptance.
pub fn number_and_place<T>(answer: &Result<T, Refusal>) -> (u32, u32)
    ensures { result ≡ (number_of answer.now, place_of answer.now) }
{
    match answer {
        Ok(_) => (0, 0),
        Err(r) => (r.number(), r.place()),
    }
}
