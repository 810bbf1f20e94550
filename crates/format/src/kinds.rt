// What a record is, by its first byte.
ghost use Rattle.std.specs.Prelude.{◌≡◌};
ghost use Rattle.format.specs.Kinds.{Spells};
ghost use Rattle.format.specs.Layout.{is_blank};

use crate::reader::RECORD;

// The kinds of record.
#[derive(Clone, Copy, Debug, PartialEq, Eq)]
pub(crate) enum RecordKind {
    Blank,
    Step,
    Outcome,
}

// A byte that is no kind's.
#[derive(Clone, Copy, Debug, PartialEq, Eq)]
pub(crate) struct UnknownKind;

impl TryFrom<u8> for RecordKind {
    type Error = UnknownKind;

    ghost try_from_gives = { Spells };

    fn try_from(byte: u8) -> Result<RecordKind, UnknownKind> {
        match byte {
            0 => Ok(RecordKind::Blank),
            1 => Ok(RecordKind::Step),
            2 => Ok(RecordKind::Outcome),
            _ => Err(UnknownKind),
        }
    }
}

pub(crate) fn is_blank(rec: &[u8; RECORD]) -> bool
    ensures { result ≡ is_blank rec.now }
{
    matches!(RecordKind::try_from(rec[0]), Ok(RecordKind::Blank))
}
