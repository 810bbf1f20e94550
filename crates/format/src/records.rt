// Layer 2: kinds, names, steps and outcomes, record by record.
ghost use Rattle.std.specs.Prelude.{◌≡◌, ◌^◌, ◌<◌, ◌≤◌, not, length, IfOk};
ghost use Rattle.format.specs.Refusals.{refusal_in, first_failing};
ghost use Rattle.format.specs.Checks.{wrong_name_byte, wrong_text, wrong_step, wrong_outcome, name_field_checks};
ghost use Rattle.format.specs.Checks.{record_checks, ahead_behind, contents_of, record_layer};

use crate::blocks::check_blocks;
use crate::bytes::all_zero;
use crate::checks::{Cause, ensure};
use crate::faults::{Fault, RecordCause};
use crate::kinds::{RecordKind, UnknownKind};
use crate::layout::{
    FIELDS, FIRST_PRINTABLE, GREATEST_STEP, LAST_PRINTABLE, LONGEST_NAME, MOST_OUTCOMES,
};
use crate::reader::{RECORD, Reader};

// How many steps and outcomes a file records.
#[derive(Clone, Copy, Debug, Default, PartialEq, Eq)]
pub struct Contents {
    pub steps: usize,
    pub outcomes: usize,
}

// What lies ahead of a record: how many records, steps and outcomes, and the step of the outcome just ahead.
// The last is 0 where there is none, which no step is below: as an `Option` it would be asked for just that 0.
#[derive(Clone, Copy, Default)]
struct Ahead {
    records: usize,
    steps: usize,
    outcomes: usize,
    floor: u8,
}

// Whether byte `i` of the name's field is right for a name of that length.
fn name_byte_right(len: u8, i: usize, b: u8) -> bool
    ensures { result ≡ not (wrong_name_byte len i b) }
{
    if i < usize::from(len) {
        (FIRST_PRINTABLE..=LAST_PRINTABLE).contains(&b)
    } else {
        b == 0
    }
}

// Whether the field holds a name of that length and zeros behind it.
fn text_right(len: u8, text: &[u8]) -> bool
    requires { length text.now ≡ 13 }
    ensures { result ≡ not (wrong_text len text.now) }
{
    text.iter()
        .enumerate()
        .all(|(i, b)| name_byte_right(len, i, *b))
}

impl Ahead {
    fn check_name(&self, len: u8, text: &[u8]) -> Result<(), Fault>
        requires { length text.now ≡ 13 }
        ensures { refusal_in result ≡ first_failing (name_field_checks self.now.records len text.now) }
    {
        ensure(len != 0, RecordCause::Unnamed, self.records)?;
        ensure(
            len <= LONGEST_NAME && text_right(len, text),
            RecordCause::Name,
            self.records,
        )
    }

    fn step_right(&self, step: u8, mask: u8, unused: &[u8]) -> bool
        ensures { result ≡ not (wrong_step self.now step mask unused.now) }
    {
        usize::from(step) == self.steps && step <= GREATEST_STEP && mask != 0 && all_zero(unused)
    }

    fn outcome_right(&self, step: u8) -> bool
        ensures { result ≡ not (wrong_outcome self.now step) }
    {
        self.outcomes < MOST_OUTCOMES && usize::from(step) + 1 < self.steps && step >= self.floor
    }

    // The checks of the next record, in their order.
    fn check(&self, rec: &[u8; RECORD]) -> Result<(), Fault>
        ensures { refusal_in result ≡ first_failing (record_checks self.now rec.now) }
    {
        // The slice, which always has two bytes: what such a pattern takes of an array can't be taken apart in turn.
        let [kind, step, rest @ ..] = &rec[..] else {
            unreachable()
        };
        let (fields, name) = rest.split_at(FIELDS);
        let place = self.records;
        match RecordKind::try_from(*kind) {
            Ok(RecordKind::Blank) => Ok(()),
            Ok(RecordKind::Step) => {
                ensure(self.outcomes == 0, RecordCause::Kind, place)?;
                self.check_name(name[0], &name[1..])?;
                let right = self.step_right(*step, fields[0], &fields[1..]);
                ensure(right, RecordCause::Step, place)
            }
            Ok(RecordKind::Outcome) => {
                self.check_name(name[0], &name[1..])?;
                ensure(self.outcome_right(*step), RecordCause::Outcome, place)
            }
            Err(UnknownKind) => Err(RecordCause::Kind.at(place)),
        }
    }

    // The same, one record further.
    fn behind(self, rec: &[u8; RECORD]) -> Ahead
        requires { (self.records < 2 ^ 63) × (self.steps ≤ self.records) × (self.outcomes ≤ self.records) }
        ensures { result ≡ ahead_behind self rec.now }
    {
        let [kind, step, ..] = *rec;
        let next = Ahead {
            records: self.records + 1,
            floor: 0,
            ..self
        };
        match RecordKind::try_from(kind) {
            Ok(RecordKind::Step) => Ahead {
                steps: next.steps + 1,
                ..next
            },
            Ok(RecordKind::Outcome) => Ahead {
                outcomes: next.outcomes + 1,
                floor: step,
                ..next
            },
            _ => next,
        }
    }
}

// The checks of both layers, in their order; how many steps and outcomes there are.
pub fn check_records(file: &[u8]) -> Result<Contents, Fault>
    ensures refused { refusal_in result ≡ first_failing (record_layer file.now) }
    ensures counted { IfOk result (λ c. c ≡ contents_of file.now) }
{
    check_blocks(file)?;
    let mut ahead = Ahead::default();
    for record in Reader::at(file, 0) {
        ahead.check(record)?;
        ahead = ahead.behind(record);
    }
    let Ahead {
        steps,
        outcomes,
        ..
    } = ahead;
    Ok(Contents { steps, outcomes })
}
