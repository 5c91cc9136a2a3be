// The answer of a call as it is stored, and what it says of the lent buffers.
ghost use Rattle.std.specs.Prelude.{◌≤◌};
ghost use Rattle.replay.specs.Lists.{Fewer};

use super::lists::{LENT_ENTRIES, Numbers, zeros};
use sparse::Refusal;
use sparse::refusal::number_and_place;

// The refusals that leave every buffer as it is.
const TOO_LARGE: u32 = 1;

const BAD_STARTS: u32 = 2;

const BAD_ROW: u32 = 3;

const NO_ROOM: u32 = 5;

// The refusal where there is no perfect matching.
const UNMATCHED: u32 = 9;

// What becomes of the lent buffers.
#[derive(Clone, Copy)]
pub enum Outcome {
    Accepted,
    // There is no perfect matching: the marks say why.
    Unmatched,
    // Refused before a buffer was written.
    Untouched,
    // Refused with the workspace zero.
    Cleared,
}

// The number of a refusal and its place; an acceptance is 0 at 0.
#[derive(Clone, Copy, PartialEq, Eq)]
pub struct Answer {
    number: u32,
    place: u32,
}

impl Answer {
    pub fn read<'a>(numbers: &mut Numbers<'a>) -> Option<Answer>
        ensures { Fewer numbers.old numbers.new }
    {
        let number = numbers.number()?;
        let place = numbers.number()?;
        Some(Answer { number, place })
    }

    pub fn outcome(self) -> Outcome {
        match self.number {
            0 => Outcome::Accepted,
            UNMATCHED => Outcome::Unmatched,
            TOO_LARGE | BAD_STARTS | BAD_ROW | NO_ROOM => Outcome::Untouched,
            _ => Outcome::Cleared,
        }
    }

    // What a workspace slice with this need holds afterwards.
    pub fn work(self, need: usize) -> &'static [u32]
        requires { need ≤ LENT_ENTRIES }
    {
        match self.outcome() {
            Outcome::Untouched => &[],
            _ => zeros(need),
        }
    }
}

impl<T> From<&Result<T, Refusal>> for Answer {
    fn from(answer: &Result<T, Refusal>) -> Answer {
        let (number, place) = number_and_place(answer);
        Answer { number, place }
    }
}

// The answer and its count of blocks, which is 0 without an acceptance.
pub fn with_count(answer: Result<u32, Refusal>) -> (Answer, u32) {
    (Answer::from(&answer), answer.unwrap_or(0))
}
