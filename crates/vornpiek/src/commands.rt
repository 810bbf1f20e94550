// What the program is asked to do.

use crate::failures::Failure;
use std::num::{IntErrorKind, ParseIntError};

pub const VERSION: &str = "vornpiek 0.1.0";

pub const HELP: &str = "vornpiek: reads setup files of a microprocessor knee

usage:
  vornpiek names FILE          the number and the name of each record
  vornpiek name FILE NUMBER    the name of one record
  vornpiek --help              this text
  vornpiek --version           the version

A file that is refused is answered on standard error, 'refused N layer L place P: why',
and the status is 1.";

#[derive(Clone, Copy, Debug)]
pub enum Command<'a> {
    Help,
    Version,
    Names { path: &'a str },
    Name { path: &'a str, number: usize },
}

// A number too large for any file is as good as the largest.
fn parse_number(text: &str) -> Result<usize, Failure> {
    text.parse()
        .or_else(|error: ParseIntError| match error.kind() {
            IntErrorKind::PosOverflow => Ok(usize::MAX),
            _ => Err(Failure::NoNumber),
        })
}

// The command that the words after the program's own name spell; clap would answer in words of its own.
impl<'a> TryFrom<&[&'a str]> for Command<'a> {
    type Error = Failure;

    fn try_from(words: &[&'a str]) -> Result<Command<'a>, Failure> {
        match *words {
            ["--help"] => Ok(Command::Help),
            ["--version"] => Ok(Command::Version),
            ["names", path] => Ok(Command::Names { path }),
            ["name", path, number] => {
                let number = parse_number(number)?;
                Ok(Command::Name { path, number })
            }
            _ => Err(Failure::NoCommand),
        }
    }
}
