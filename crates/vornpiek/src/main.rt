// The command line over the libraries: reads a setup file, asks them, and prints what they answer.
#![tactic(auto)]

mod commands;
mod failures;
mod files;

use commands::{Command, HELP, VERSION};
use failures::Failure;
use files::read_setup;
use format::names::name;
use format::records::check_records;
use std::io::Write;
use std::process::ExitCode;
use std::rt::{Env, Files};
use std::{env, io};

// A line with the name of one record.
fn print_name(out: &mut impl Write, file: &[u8], number: usize) -> Result<(), Failure> {
    out.write_all(name(file, number)?)?;
    out.write_all(b"\n")?;
    Ok(())
}

// A line for each record that is not blank: its number and its name.
// The loop is over numbers, since a number is printed and a record is asked for by it.
fn print_names(out: &mut impl Write, file: &[u8]) -> Result<(), Failure> {
    let contents = check_records(file)?;
    for number in 0..contents.steps.saturating_add(contents.outcomes) {
        write!(out, "{number} ")?;
        print_name(out, file, number)?;
    }
    Ok(())
}

fn run(rt: &(impl Env + Files + Print + AllocGlobal)) -> Result<(), Failure> {
    let args: Vec<String> = env::args(rt)?.skip(1).collect(rt.alloc())?;
    let words: Vec<&str> = args.iter().map(String::as_str).collect(rt.alloc())?;
    let mut out = io::writer(rt);
    match Command::try_from(words.as_slice())? {
        // One write, by the macro: a reader that takes the first line and stops is no failure.
        Command::Help => println!(rt; "{HELP}")?,
        Command::Version => println!(rt; "{VERSION}")?,
        Command::Names { path } => {
            let file = read_setup(rt, path)?;
            print_names(&mut out, file.as_slice())?;
        }
        Command::Name { path, number } => {
            let file = read_setup(rt, path)?;
            print_name(&mut out, file.as_slice(), number)?;
        }
    }
    Ok(())
}

// An error that main returned would be printed once more, so it returns the status alone.
fn main(rt: HostRuntime) -> ExitCode {
    match run(&rt) {
        Ok(()) => ExitCode::SUCCESS,
        Err(failure) => {
            let _ = eprintln!(rt; "{failure}");
            ExitCode::FAILURE
        }
    }
}
