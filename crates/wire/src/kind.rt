ghost use Rattle.wire.specs.Kinds.{Names};

// What a record holds, by the number that it writes.
#[derive(Clone, Copy, PartialEq, Eq, Debug)]
pub(crate) enum Kind {
    Message = 1,
    Comment = 2,
}

// A number that names no kind.
#[derive(Clone, Copy, PartialEq, Eq, Debug)]
pub(crate) struct UnknownKind;

impl TryFrom<u16> for Kind {
    type Error = UnknownKind;

    ghost try_from_gives = { Names };

    fn try_from(number: u16) -> Result<Kind, UnknownKind> {
        match number {
            1 => Ok(Kind::Message),
            2 => Ok(Kind::Comment),
            _ => Err(UnknownKind),
        }
    }
}
