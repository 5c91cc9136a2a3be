// Replays stored cases: each calls a function of the library, and its answer and every lent buffer are compared with what is stored.
#![tactic(auto)]

ghost use Rattle.std.specs.Prelude.{IfOk};
ghost use Rattle.io.specs.Counts.{IsPrefixLen};
ghost use Rattle.replay.specs.Lists.{Fewer};

mod answer;
mod case;
mod column;
mod diagonal;
mod form;
mod kind;
mod lent;
mod lists;
mod order;
mod pattern;
mod text;

use case::replay;
use column::Edit;
use diagonal::Diagonal;
use form::Form;
use kind::Kind;
use lists::Numbers;
use order::Order;
use std::io;
use std::io::{Input, Print, Read};
use text::read_numbers;

const MAX_TEXT: usize = 163840;

// One byte more, to tell the longest text from a longer one.
const TEXT_ROOM: usize = MAX_TEXT + 1;

// A text with more numbers is malformed behind them.
const NUMBERS_ROOM: usize = 65537;

// Whether the next case agrees, or none where it is malformed. Each kind has its line here.
fn replay_case(code: u32, numbers: &mut Numbers) -> Option<bool>
    ensures { Fewer numbers.old numbers.new }
{
    match Kind::try_from(code).ok()? {
        Kind::Order => replay::<Order>(numbers),
        Kind::Diagonal => replay::<Diagonal>(numbers),
        Kind::Form => replay::<Form>(numbers),
        Kind::Edit => replay::<Edit>(numbers),
    }
}

fn say_malformed<R: Print>(rt: &R, case: u64) -> io::Result<()> {
    println!(rt; "replay: malformed at case {case}")
}

// All cases, up to the first that is malformed; those that differ are named. Where the numbers are not the whole text, the case
// after them is malformed.
fn replay_all<R: Print>(rt: &R, numbers: &[u32], whole: bool) -> io::Result<()> {
    let mut numbers = Numbers { rest: numbers };
    let mut cases = 0u64;
    let mut agreed = 0u64;
    while let Some(code) = numbers.number() {
        cases += 1;
        let Some(agrees) = replay_case(code, &mut numbers) else {
            return say_malformed(rt, cases);
        };
        if agrees {
            agreed += 1;
        } else {
            println!(rt; "case {cases} (kind {code}) differs")?;
        }
    }
    if !whole {
        return say_malformed(rt, cases + 1);
    }
    println!(rt; "replay: {agreed} of {cases} cases agree")
}

// Reads until the buffer is full or the reader ends, and says how many bytes stand at the buffer's start.
fn read_full<R: Read>(reader: &mut R, buf: &mut [u8]) -> io::Result<usize>
    ensures { IfOk result (λ n. IsPrefixLen n buf.new) }
{
    let mut done: usize = 0;
    while done < buf.len() {
        let n = reader.read(&mut buf[done..])?;
        if n == 0 {
            break;
        }
        done += n;
    }
    Ok(done)
}

fn main(rt: HostRuntime) -> io::Result<()> {
    let mut text = [0u8; TEXT_ROOM];
    let mut input = rt.reader();
    let length = read_full(&mut input, &mut text)?;
    if MAX_TEXT < length {
        return say_malformed(&rt, 1);
    }
    let mut numbers = [0u32; NUMBERS_ROOM];
    let found = read_numbers(&text[..length], &mut numbers);
    let count = found.unwrap_or_else(|cut| cut.count);
    replay_all(&rt, &numbers[..count], found.is_ok())
}
