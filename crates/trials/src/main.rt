// Changes a sample file in every way that a rule speaks of, and counts how often the answer is the rule's.
// It writes and seals the changed files by code of its own.
#![tactic(auto)]

ghost use Rattle.std.specs.Prelude.{◌≡◌, length, vec_len};
ghost use Rattle.format.specs.Refusals.{number_of, layer_of, place_of};

use format::faults::Fault;
use format::names::name;
use format::records::check_records;
use std::alloc::{AllocError, Global};
use std::{fmt, fs, io, mem};

// A block is a header, the records, and the check of all before it.
const BLOCK: usize = 512;

const HEADER: usize = 4;

const RECORDS: usize = 9;

const CHECK: usize = 508;

const RECORD: usize = 56;

// Where a record has the length of its name; the name's bytes are the rest.
const NAME: usize = 42;

type Block = [u8; BLOCK];

type Record = [u8; RECORD];

// Why a file is refused, if it is.
fn refusal(file: &[u8]) -> Option<Fault> {
    name(file, 0).err()
}

// What tells one refusal from another: its number, layer and place.
fn numbers(fault: Fault) -> (u8, u8, usize)
    ensures { (result.0 ≡ number_of fault) × ((result.1 ≡ layer_of fault) × (result.2 ≡ place_of fault)) }
{
    (fault.number(), fault.layer(), fault.place())
}

// A refusal as it is printed: its numbers, all 0 where there is none.
#[derive(Clone, Copy)]
struct Told(Option<Fault>);

impl fmt::Display for Told {
    fn fmt<W: fmt::Write>(&self, f: &mut fmt::Formatter<W>) -> fmt::Result {
        let (number, layer, place) = self.0.map_or((0, 0, 0), numbers);
        write!(f, "({number}, {layer}, {place})")
    }
}

// Writes the check of a block anew: the sum of the bytes before it, each times its place from 1.
fn seal(block: &mut Block) {
    let (bytes, check) = block.split_at_mut(CHECK);
    let sum = (1u32..)
        .zip(bytes.iter())
        .fold(0u32, |sum, (weight, byte)| {
            sum.wrapping_add(weight.wrapping_mul(u32::from(*byte)))
        });
    check.copy_from_slice(&sum.to_be_bytes());
}

// Writes a name of `length` letters into a record, or as many of them as there is room for.
fn rename(record: &mut Record, length: u8) {
    record[NAME] = length;
    let name = &mut record[NAME + 1..];
    let (letters, zeros) = name.split_at_mut(usize::from(length).min(name.len()));
    letters.fill(b'n');
    zeros.fill(0);
}

// The step of number 0, with one party and a name of one letter.
fn step() -> Record {
    let mut record = [0; RECORD];
    record[0] = 1;
    record[2] = 1;
    record[NAME] = 1;
    record[NAME + 1] = b's';
    record
}

// A file of one block: the records, and blanks behind them.
fn lone_block(records: &[Record]) -> Block {
    let mut block = [0; BLOCK];
    block[3] = 1;
    let (places, _) = block[HEADER..CHECK].as_chunks_mut::<RECORD>();
    for (place, record) in places.iter_mut().zip(records) {
        *place = *record;
    }
    seal(&mut block);
    block
}

// Writes one byte, and answers what it was.
fn replace(bytes: &mut [u8], at: usize, byte: u8) -> Option<u8> {
    let place = bytes.get_mut(at)?;
    Some(mem::replace(place, byte))
}

// A sample file, and the copy of it that each trial changes.
#[derive(Drop)]
struct Trial<'a> {
    file: &'a [u8],
    copy: Vec<u8>,
    records: usize,
    ghost alike: { vec_len copy ≡ length file.now },
}

impl<'a> Trial<'a> {
    fn new(alloc: Global, file: &'a [u8]) -> Result<Trial<'a>, AllocError> {
        let contents = check_records(file).unwrap_or_default();
        Ok(Trial {
            file,
            copy: file.to_vec(alloc)?,
            records: contents.steps.saturating_add(contents.outcomes),
        })
    }

    // Why the file is refused, if it is, once the change is made in it.
    fn refused_with<F: FnOnce(&mut [u8])>(&mut self, change: F) -> Option<Fault>
        requires { F.IsAlwaysCallable change }
    {
        self.copy.as_mut_slice().copy_from_slice(self.file);
        change(self.copy.as_mut_slice());
        refusal(self.copy.as_slice())
    }

    // Why it is refused, if it is, once a record's name has `length` letters.
    fn renamed(&mut self, record: usize, length: u8) -> Option<Fault> {
        self.refused_with(|copy| {
            let (blocks, _) = copy.as_chunks_mut::<BLOCK>();
            if let Some(block) = blocks.get_mut(record / RECORDS) {
                let (records, _) = block[HEADER..CHECK].as_chunks_mut::<RECORD>();
                rename(&mut records[record % RECORDS], length);
                seal(block);
            }
        })
    }

    // Why the copy is refused, if it is, once one byte is another. The byte is put back, since to copy
    // the whole file for each of its bytes takes a time that grows by the square of its length.
    fn changed(&mut self, at: usize, byte: u8) -> Option<Fault> {
        let old = replace(self.copy.as_mut_slice(), at, byte)?;
        let fault = refusal(self.copy.as_slice());
        let _ = replace(self.copy.as_mut_slice(), at, old);
        fault
    }

    // How many records, once renamed, are refused at their own place by the number, or taken where
    // there is none.
    fn count_renamed(&mut self, length: u8, wanted: Option<u8>) -> usize {
        (0..self.records)
            .filter(|&place| {
                self.renamed(place, length).map(numbers) == wanted.map(|number| (number, 2, place))
            })
            .count()
    }

    // How many of all changes of one byte are refused by the check of its block.
    fn count_changed(&mut self) -> usize {
        let file = self.file;
        self.copy.as_mut_slice().copy_from_slice(file);
        file.iter()
            .enumerate()
            .map(|(at, old)| self.count_changed_at(at, *old))
            .fold(0, usize::saturating_add)
    }

    fn count_changed_at(&mut self, at: usize, old: u8) -> usize {
        (1..=u8::MAX)
            .filter(|by| {
                self.changed(at, old.wrapping_add(*by)).map(numbers) == Some((2, 1, at / BLOCK))
            })
            .count()
    }
}

fn main(rt: HostRuntime) -> io::Result<()> {
    let file = fs::read(&rt, "fitting.knee")?;
    let mut trial = Trial::new(rt.alloc(), file.as_slice())?;
    let long = vec![in rt.alloc(); 0u8; 9728]?;
    let bytes = file.len();
    let records = trial.records;
    println!(rt; "fitting.knee: {bytes} bytes, {records} records")?;
    let told = Told(refusal(long.as_slice()));
    println!(rt; "length 9728: {told}")?;
    let eight = Told(refusal(&lone_block(&[step()])));
    let nine = Told(refusal(&lone_block(&[])));
    println!(rt; "eight blanks: {eight}, nine blanks: {nine}")?;
    let renamings = [
        (13, None, "taken"),
        (14, Some(7), "refused by 7 at their record"),
        (0, Some(6), "refused by 6 at their record"),
    ];
    for (length, wanted, told) in renamings {
        let right = trial.count_renamed(length, wanted);
        println!(rt; "names of length {length}: {right} {told}")?;
    }
    let right = trial.count_changed();
    println!(rt; "one byte changed: {right} refused by 2 at its block")?;
    Ok(())
}
