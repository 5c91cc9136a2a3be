// Cases of kind 1, `ordering::order_simple`: the lists, where the answer is 0, are the columns by place and the places by column.
use super::answer::{Answer, Outcome};
use super::case::Case;
use super::lists::{JUNK, LENT, Numbers, any_differs, differs};
use super::pattern::Pattern;
use ordering::OrderBuffers;

#[derive(Drop)]
pub struct Order<'a> {
    pattern: Pattern<'a>,
    answer: Answer,
    new2orig: &'a [u32],
    orig2new: &'a [u32],
}

impl<'a> Case<'a> for Order<'a> {
    fn read_behind(pattern: Pattern<'a>, numbers: &mut Numbers<'a>) -> Option<Order<'a>> {
        let answer = Answer::read(numbers)?;
        let listed = match answer.outcome() {
            Outcome::Accepted => pattern.columns(),
            _ => 0,
        };
        let new2orig = numbers.list(listed)?;
        let orig2new = numbers.list(listed)?;
        Some(Order {
            pattern,
            answer,
            new2orig,
            orig2new,
        })
    }

    // Calls the function on buffers that hold junk.
    fn agrees(&self) -> bool {
        let mut score2head = [JUNK; LENT];
        let mut prev = [JUNK; LENT];
        let mut next = [JUNK; LENT];
        let mut marks = [JUNK; LENT];
        let mut new2orig = [JUNK; LENT];
        let mut orig2new = [JUNK; LENT];
        let mut lent = OrderBuffers {
            score2head: &mut score2head,
            prev: &mut prev,
            next: &mut next,
            marks: &mut marks,
            new2orig: &mut new2orig,
            orig2new: &mut orig2new,
        };
        let answer = ordering::order_simple(
            self.pattern.size,
            self.pattern.starts,
            self.pattern.rows,
            &mut lent,
        );
        let work = self.answer.work(self.pattern.columns());
        Answer::from(&answer) == self.answer
            && !any_differs(&[&score2head, &prev, &next, &marks], work)
            && !differs(&new2orig, self.new2orig)
            && !differs(&orig2new, self.orig2new)
    }
}
