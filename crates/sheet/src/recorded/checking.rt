// Making sure that a file passes the record layer.
ghost use Rattle.std.specs.Prelude.{◌≡◌, IfOk};
ghost use Rattle.format.specs.Checks.{record_layer};
ghost use Rattle.format.specs.Refusals.{refusal_in, first_failing};

use crate::recorded::RecordedFile;
use format::faults::Fault;
use format::records::check_records;

impl<'a> RecordedFile<'a> {
    // The file, or the fault of the first check of its two layers that fails.
    pub(crate) fn check(file: &'a [u8]) -> Result<RecordedFile<'a>, Fault>
        ensures refused { refusal_in result ≡ first_failing (record_layer file.now) }
        ensures same { IfOk result (λ recorded. recorded.file.now ≡ file.now) }
    {
        let contents = check_records(file)?;
        Ok(RecordedFile { file, contents })
    }
}
