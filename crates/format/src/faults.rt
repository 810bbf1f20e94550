// Why a call says no. docs/REFUSALS.md has each number's sentence.
ghost use Rattle.std.specs.Prelude.{◌≡◌};
ghost use Rattle.format.specs.declared.faults.Fault.TheVariants.{Call};
ghost use Rattle.format.specs.Refusals.{number_of, layer_of, place_of};

use thiserror::Error;

// What can be wrong with a file's blocks, in the order of the checks.
#[derive(Clone, Copy, Debug, PartialEq, Eq, Error)]
pub enum BlockCause {
    #[error("the length is not a multiple of 512 from 512 to 9216")]
    Length,
    #[error("the block's check is wrong")]
    Check,
    #[error("the block's number is not its position, or its block count is not the file's")]
    Header,
    #[error("a blank record is not all zeros, is not last, or is one of nine or more")]
    Blank,
}

// What can be wrong with a record, in the order of the checks.
#[derive(Clone, Copy, Debug, PartialEq, Eq, Error)]
pub enum RecordCause {
    #[error("the record's kind is over 2, or a step follows an outcome")]
    Kind,
    #[error("the record has no name")]
    Unnamed,
    #[error("the name is longer than 13, not printable, or not followed by zeros")]
    Name,
    #[error("the step's number is not its position or over 31, its parties are none, or an unused byte is not 0")]
    Step,
    #[error("the outcome is beyond the 128th, or its step is the last, unknown or out of order")]
    Outcome,
}

// What can be wrong with a call's own arguments.
#[derive(Clone, Copy, Debug, PartialEq, Eq, Error)]
pub enum CallCause {
    #[error("there is no record of that number")]
    NoRecord,
}

// A refusal, by the layer that gives it; the place is a block's or a record's, from 0.
#[derive(Clone, Copy, Debug, PartialEq, Eq, Error)]
pub enum Fault {
    #[error("{cause}")]
    Block { cause: BlockCause, place: usize },
    #[error("{cause}")]
    Record { cause: RecordCause, place: usize },
    #[error("{cause}")]
    Call { cause: CallCause },
}

impl From<CallCause> for Fault {
    ghost from_gives = { λ cause fault. fault ≡ Call cause };

    fn from(cause: CallCause) -> Fault {
        Fault::Call { cause }
    }
}

impl Fault {
    // By cases, in the order of docs/REFUSALS.md: there a number is looked up by its cause.
    pub fn number(&self) -> u8
        ensures { result ≡ number_of self.now }
    {
        match self {
            Fault::Block { cause, .. } => match cause {
                BlockCause::Length => 1,
                BlockCause::Check => 2,
                BlockCause::Header => 3,
                BlockCause::Blank => 4,
            },
            Fault::Record { cause, .. } => match cause {
                RecordCause::Kind => 5,
                RecordCause::Unnamed => 6,
                RecordCause::Name => 7,
                RecordCause::Step => 8,
                RecordCause::Outcome => 9,
            },
            Fault::Call { cause } => match cause {
                CallCause::NoRecord => 22,
            },
        }
    }

    pub fn layer(&self) -> u8
        ensures { result ≡ layer_of self.now }
    {
        match self {
            Fault::Block { .. } => 1,
            Fault::Record { .. } => 2,
            Fault::Call { .. } => 0,
        }
    }

    // 0 where there is none: a caller is promised a number in each case.
    pub fn place(&self) -> usize
        ensures { result ≡ place_of self.now }
    {
        match self {
            Fault::Block { place, .. } | Fault::Record { place, .. } => *place,
            Fault::Call { .. } => 0,
        }
    }
}
