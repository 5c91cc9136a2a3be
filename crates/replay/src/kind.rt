// The kinds of cases.
ghost use Rattle.replay.specs.Kind.{Decodes};

// The function that a case calls.
#[derive(Clone, Copy, PartialEq, Eq)]
pub enum Kind {
    Order,
    Diagonal,
    Form,
    Edit,
}

// A number that is no kind's.
#[derive(Clone, Copy)]
pub struct UnknownKind(pub u32);

impl TryFrom<u32> for Kind {
    type Error = UnknownKind;

    ghost try_from_gives = { Decodes };

    fn try_from(code: u32) -> Result<Kind, UnknownKind> {
        match code {
            1 => Ok(Kind::Order),
            2 => Ok(Kind::Diagonal),
            3 => Ok(Kind::Form),
            4 => Ok(Kind::Edit),
            _ => Err(UnknownKind(code)),
        }
    }
}
