// Why the program ends with status 1, as one line for a person.

use format::faults::Fault;
use std::alloc::AllocError;
use std::io;
use thiserror::Error;

#[derive(Debug, Drop, Error)]
pub enum Failure {
    #[error("refused {} layer {} place {}: {}", .0.number(), .0.layer(), .0.place(), .0)]
    Refused(#[from] Fault),
    #[error("vornpiek: cannot read {path}: {error}")]
    Unreadable { path: String, error: io::Error },
    #[error("vornpiek: not a command: see vornpiek --help")]
    NoCommand,
    #[error("vornpiek: not a record's number: see vornpiek --help")]
    NoNumber,
    #[error("vornpiek: out of memory")]
    NoMemory(#[from(alloc)] AllocError),
    #[error("vornpiek: {0}")]
    Io(#[from] io::Error),
}

#[cfg(test)]
mod tests {
    use super::*;
    use format::faults::{BlockCause, CallCause, RecordCause};
    use std::test::Fail;

    const LINES: [&str; 10] = [
        "refused 1 layer 1 place 3: the length is not a multiple of 512 from 512 to 9216",
        "refused 2 layer 1 place 3: the block's check is wrong",
        "refused 3 layer 1 place 3: the block's number is not its position, or its block count is not the file's",
        "refused 4 layer 1 place 3: a blank record is not all zeros, is not last, or is one of nine or more",
        "refused 5 layer 2 place 7: the record's kind is over 2, or a step follows an outcome",
        "refused 6 layer 2 place 7: the record has no name",
        "refused 7 layer 2 place 7: the name is longer than 13, not printable, or not followed by zeros",
        "refused 8 layer 2 place 7: the step's number is not its position or over 31, its parties are none, or an unused byte is not 0",
        "refused 9 layer 2 place 7: the outcome is beyond the 128th, or its step is the last, unknown or out of order",
        "refused 22 layer 0 place 0: there is no record of that number",
    ];

    fn block(cause: BlockCause) -> Fault {
        Fault::Block { cause, place: 3 }
    }

    fn record(cause: RecordCause) -> Fault {
        Fault::Record { cause, place: 7 }
    }

    #[test]
    fn a_refusal_is_one_line_with_its_sentence(rt: HostRuntime) -> Result<(), Fail> {
        let faults = [
            block(BlockCause::Length),
            block(BlockCause::Check),
            block(BlockCause::Header),
            block(BlockCause::Blank),
            record(RecordCause::Kind),
            record(RecordCause::Unnamed),
            record(RecordCause::Name),
            record(RecordCause::Step),
            record(RecordCause::Outcome),
            Fault::from(CallCause::NoRecord),
        ];
        for (fault, line) in faults.into_iter().zip(LINES) {
            let told = Failure::Refused(fault).to_string(rt.alloc())?;
            assert_eq!(rt; told.as_str(), line);
        }
        Ok(())
    }

    #[test]
    fn a_wrong_command_line_is_told_in_one_line(rt: HostRuntime) -> Result<(), Fail> {
        let command = Failure::NoCommand.to_string(rt.alloc())?;
        assert_eq!(rt;
            command.as_str(),
            "vornpiek: not a command: see vornpiek --help"
        );
        let number = Failure::NoNumber.to_string(rt.alloc())?;
        assert_eq!(rt;
            number.as_str(),
            "vornpiek: not a record's number: see vornpiek --help"
        );
        Ok(())
    }
}
