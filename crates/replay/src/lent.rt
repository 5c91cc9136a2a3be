// The buffers that a call of kind 3 or 4 is lent, but for backrows, which is many times as long: a struct is copied to where it is built.
use super::lists::{JUNK, LENT};

#[derive(Drop)]
pub struct Lent {
    pub visited: [u32; LENT],
    pub cheap: [u32; LENT],
    pub finished: [u32; LENT],
    pub col2row: [u32; LENT],
    pub backstarts: [u32; LENT],
    pub scol: [u32; LENT],
    pub sat: [u32; LENT],
    pub row2col: [u32; LENT],
    pub hall: [u32; LENT],
    pub blockcols: [u32; LENT],
    pub blockstarts: [u32; LENT],
}

impl Lent {
    pub fn junk() -> Lent {
        Lent {
            visited: [JUNK; LENT],
            cheap: [JUNK; LENT],
            finished: [JUNK; LENT],
            col2row: [JUNK; LENT],
            backstarts: [JUNK; LENT],
            scol: [JUNK; LENT],
            sat: [JUNK; LENT],
            row2col: [JUNK; LENT],
            hall: [JUNK; LENT],
            blockcols: [JUNK; LENT],
            blockstarts: [JUNK; LENT],
        }
    }
}

// The buffers as a call takes them: its workspace, and what it answers in.
macro_rules! lend {
    ($lent:ident, $backrows:ident) => {
        (
            triangular::FormWork {
                visited: &mut $lent.visited,
                cheap: &mut $lent.cheap,
                finished: &mut $lent.finished,
                col2row: &mut $lent.col2row,
                backstarts: &mut $lent.backstarts,
                backrows: &mut $backrows,
                scol: &mut $lent.scol,
                sat: &mut $lent.sat,
            },
            triangular::FormOutputs {
                row2col: &mut $lent.row2col,
                hall: &mut $lent.hall,
                blockcols: &mut $lent.blockcols,
                blockstarts: &mut $lent.blockstarts,
            },
        )
    };
}

pub(crate) use lend;
