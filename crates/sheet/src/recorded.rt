// A file that passes the record layer.
ghost use Rattle.sheet.specs.Recorded.{Recorded};

use format::records::Contents;

mod checking;

// The file, and how many steps and outcomes it records.
#[derive(Clone, Copy)]
pub(crate) struct RecordedFile<'a> {
    pub(crate) file: &'a [u8],
    pub(crate) contents: Contents,
    ghost recorded: { Recorded file.now contents },
}
