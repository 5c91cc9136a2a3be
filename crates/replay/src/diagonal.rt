// Cases of kind 2, `matching::find_diag_matching`: the list is the column of each row where the answer is 0, and the Hall marks
// where it is 9. Other answers have none.
use super::answer::{Answer, Outcome};
use super::case::Case;
use super::lists::{JUNK, LENT, Numbers, any_differs, differs, zeros};
use super::pattern::Pattern;
use matching::SearchWork;

// What row2col and hall hold afterwards: one of them the stored list, the other zero, and after other refusals neither is written.
#[derive(Drop)]
pub struct Diagonal<'a> {
    pub pattern: Pattern<'a>,
    pub answer: Answer,
    pub row2col: &'a [u32],
    pub hall: &'a [u32],
}

impl<'a> Case<'a> for Diagonal<'a> {
    fn read_behind(pattern: Pattern<'a>, numbers: &mut Numbers<'a>) -> Option<Diagonal<'a>> {
        let answer = Answer::read(numbers)?;
        let size = pattern.columns();
        let (row2col, hall): (&'a [u32], &'a [u32]) = match answer.outcome() {
            Outcome::Accepted => (numbers.list(size)?, zeros(size)),
            Outcome::Unmatched => (zeros(size), numbers.list(size)?),
            Outcome::Untouched | Outcome::Cleared => (&[], &[]),
        };
        Some(Diagonal {
            pattern,
            answer,
            row2col,
            hall,
        })
    }

    // Calls the function on buffers that hold junk.
    fn agrees(&self) -> bool {
        let mut visited = [JUNK; LENT];
        let mut cheap = [JUNK; LENT];
        let mut scol = [JUNK; LENT];
        let mut sat = [JUNK; LENT];
        let mut row2col = [JUNK; LENT];
        let mut hall = [JUNK; LENT];
        let mut search = SearchWork {
            visited: &mut visited,
            cheap: &mut cheap,
            scol: &mut scol,
            sat: &mut sat,
        };
        let answer = matching::find_diag_matching(
            self.pattern.size,
            self.pattern.starts,
            self.pattern.rows,
            &mut search,
            &mut row2col,
            &mut hall,
        );
        let work = self.answer.work(self.pattern.columns());
        Answer::from(&answer) == self.answer
            && !any_differs(&[&visited, &cheap, &scol, &sat], work)
            && !differs(&row2col, self.row2col)
            && !differs(&hall, self.hall)
    }
}
