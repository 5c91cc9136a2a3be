// Cases of kind 4, `edit::edit_column`: behind the rows stand the edited column, how many rows take the place of its own, these rows
// and the old matching. What follows is as in kind 3. Of the refusals with number 1, the one of an edit that makes a matrix too large
// clears the workspace, and is not stored: its line would have a million rows. So `Answer::work` holds of every stored edit.
ghost use Rattle.std.specs.Prelude.{◌≤◌, length};

use super::answer::Outcome;
use super::case::Case;
use super::form::Form;
use super::lent::{Lent, lend};
use super::lists::{JUNK, LENT_ENTRIES, Numbers, holding};
use super::pattern::{MAX_SIZE, Pattern};
use sparse::Column;

// The program's own limit: a row for each there is.
const MAX_REPLACEMENT: u32 = MAX_SIZE;

#[derive(Drop)]
pub struct Edit<'a> {
    column: Column,
    replacement: &'a [u32],
    old_matching: &'a [u32],
    form: Form<'a>,
    ghost few: { length replacement.now ≤ 64 },
}

impl<'a> Edit<'a> {
    // What row2col holds afterwards: the new matching, or without one the old.
    fn left(&self) -> &'a [u32] {
        match self.form.matching.answer.outcome() {
            Outcome::Accepted => self.form.matching.row2col,
            _ => self.old_matching,
        }
    }
}

impl<'a> Case<'a> for Edit<'a> {
    fn read_behind(pattern: Pattern<'a>, numbers: &mut Numbers<'a>) -> Option<Edit<'a>> {
        let column = Column(numbers.number()?);
        let count = numbers.number_within(MAX_REPLACEMENT)?;
        let replacement = numbers.list(count as usize)?;
        let old_matching = numbers.list(pattern.columns())?;
        let form = Form::read_behind(pattern, numbers)?;
        Some(Edit {
            column,
            replacement,
            old_matching,
            form,
        })
    }

    // Calls the function on buffers that hold junk, but for the old matching.
    fn agrees(&self) -> bool {
        let pattern = &self.form.matching.pattern;
        let mut lent = Lent::junk();
        lent.row2col = holding(self.old_matching);
        let mut backrows = [JUNK; LENT_ENTRIES];
        let (mut work, mut outputs) = lend!(lent, backrows);
        let answer = edit::edit_column(
            pattern.size,
            pattern.starts,
            pattern.rows,
            self.column,
            self.replacement,
            &mut work,
            &mut outputs,
        );
        // Backrows has room for the entries and the rows of one more column.
        let back = pattern.rows.len() + pattern.columns();
        self.form
            .is_answered(answer, &lent, &backrows, back, self.left())
    }
}
