// The names in a file, each as the part of the file that holds it.
ghost use Rattle.std.specs.Prelude.{◌≡◌, ◌≤◌, true, false, IfOk, MatchOption};
ghost use Rattle.format.specs.Layout.{part, name_length, record_of};
ghost use Rattle.format.specs.Refusals.{refusal_in, first_failing};
ghost use Rattle.format.specs.Names.{no_such_record, name_checks, name_at};
ghost use Rattle.format.specs.Changed.{OneChangedByteIsRefused};

use crate::faults::{CallCause, Fault};
use crate::kinds::is_blank;
use crate::layout::NAME;
use crate::reader::{RECORD, Reader};
use crate::records::check_records;

// The name in a record, as its length gives it.
fn name_in(rec: &[u8; RECORD]) -> &[u8]
    requires { name_length rec.now ≤ 13 }
    ensures { result.now ≡ part rec.now 43 (name_length rec.now) }
{
    let len = usize::from(rec[NAME - 1]);
    &rec[NAME..NAME + len]
}

// The record of that number, if it is there and not blank.
fn find_record(file: &[u8], number: usize) -> Option<&[u8; RECORD]>
    ensures { MatchOption result
        (no_such_record file.now number ≡ true)
        (λ rec. (no_such_record file.now number ≡ false) × (rec.now ≡ record_of file.now number)) }
{
    Reader::at(file, number).next().filter(|rec| !is_blank(rec))
}

// The name of the record of that number: the bytes of the file that spell it.
pub fn name(file: &[u8], number: usize) -> Result<&[u8], Fault>
    ensures refused { refusal_in result ≡ first_failing (name_checks file.now number) }
    ensures named { IfOk result (λ part. part.now ≡ name_at file.now number) }
    ensures guarded { OneChangedByteIsRefused file.now number }
{
    let _ = check_records(file)?;
    let record = find_record(file, number).ok_or(CallCause::NoRecord)?;
    Ok(name_in(record))
}
