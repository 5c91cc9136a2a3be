// Cases of kind 3, `triangular::find_block_diag_form`: the first list is that of kind 2. Where the answer is 0 the blocks follow: how
// many there are, their columns, their starts.
ghost use Rattle.std.specs.Prelude.{◌+◌, ◌≤◌};
ghost use Rattle.replay.specs.Lists.{Fewer};

use super::answer::{Outcome, with_count};
use super::case::Case;
use super::diagonal::Diagonal;
use super::lent::{Lent, lend};
use super::lists::{JUNK, LENT_ENTRIES, Numbers, any_differs, differs, zeros};
use super::pattern::{MAX_ENTRIES, MAX_SIZE, Pattern};
use sparse::Refusal;

// How many blocks there are, and what blockcols and blockstarts hold afterwards.
#[derive(Clone, Copy)]
pub struct Blocks<'a> {
    count: u32,
    columns: &'a [u32],
    starts: &'a [u32],
}

impl<'a> Blocks<'a> {
    fn read(pattern: &Pattern<'a>, numbers: &mut Numbers<'a>) -> Option<Blocks<'a>>
        ensures { Fewer numbers.old numbers.new }
    {
        let size = pattern.columns();
        let count = numbers.number()?;
        let columns = numbers.list(size)?;
        let starts = numbers.list(size + 1)?;
        Some(Blocks {
            count,
            columns,
            starts,
        })
    }
}

#[derive(Drop)]
pub struct Form<'a> {
    pub matching: Diagonal<'a>,
    blocks: Blocks<'a>,
}

impl<'a> Form<'a> {
    // Whether an answer is the stored one, and every buffer holds what it is to. The caller says how long a part of backrows is
    // workspace, and what row2col is to hold.
    pub fn is_answered(
        &self,
        answer: Result<u32, Refusal>,
        lent: &Lent,
        backrows: &[u32],
        back: usize,
        row2col: &[u32],
    ) -> bool
        requires { back ≤ MAX_SIZE + MAX_ENTRIES }
    {
        let stored = self.matching.answer;
        let size = self.matching.pattern.columns();
        let work = stored.work(size);
        let (answer, count) = with_count(answer);
        answer == stored
            && count == self.blocks.count
            && !any_differs(
                &[
                    &lent.visited,
                    &lent.cheap,
                    &lent.scol,
                    &lent.sat,
                    &lent.finished,
                    &lent.col2row,
                ],
                work,
            )
            && !differs(&lent.backstarts, stored.work(size + 1))
            && !differs(backrows, stored.work(back))
            && !differs(&lent.row2col, row2col)
            && !differs(&lent.hall, self.matching.hall)
            && !differs(&lent.blockcols, self.blocks.columns)
            && !differs(&lent.blockstarts, self.blocks.starts)
    }
}

impl<'a> Case<'a> for Form<'a> {
    fn read_behind(pattern: Pattern<'a>, numbers: &mut Numbers<'a>) -> Option<Form<'a>> {
        let matching = Diagonal::read_behind(pattern, numbers)?;
        let size = matching.pattern.columns();
        let blocks = match matching.answer.outcome() {
            Outcome::Accepted => Blocks::read(&matching.pattern, numbers)?,
            Outcome::Unmatched => Blocks {
                count: 0,
                columns: zeros(size),
                starts: zeros(size + 1),
            },
            Outcome::Untouched | Outcome::Cleared => Blocks {
                count: 0,
                columns: &[],
                starts: &[],
            },
        };
        Some(Form { matching, blocks })
    }

    // Calls the function on buffers that hold junk.
    fn agrees(&self) -> bool {
        let pattern = &self.matching.pattern;
        let mut lent = Lent::junk();
        let mut backrows = [JUNK; LENT_ENTRIES];
        let (mut work, mut outputs) = lend!(lent, backrows);
        let answer = triangular::find_block_diag_form(
            pattern.size,
            pattern.starts,
            pattern.rows,
            &mut work,
            &mut outputs,
        );
        self.is_answered(
            answer,
            &lent,
            &backrows,
            pattern.rows.len(),
            self.matching.row2col,
        )
    }
}
