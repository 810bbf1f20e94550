// A draft of a file's diagram: its steps and rows as they were read.
ghost use Rattle.std.specs.Prelude.{◌≡◌, map};
ghost use Rattle.std.specs.List.{range_with_len};
ghost use Rattle.sheet.specs.Drafts.{Drafts};
ghost use Rattle.sheet.specs.FileDiagram.{mask_at, row_at};
ghost use Rattle.sheet.specs.Standing.{masks_of};

use crate::recorded::RecordedFile;
use crate::records::{parties_in, row_in};
use crate::steps::Steps;
use crate::table::Table;
use format::reader::Reader;
use format::records::Contents;

// How many steps and outcomes there are, and what they say.
#[derive(Clone, Copy)]
pub(crate) struct Draft {
    pub(crate) contents: Contents,
    pub(crate) steps: Steps,
    pub(crate) table: Table,
}

// The steps that the file records.
fn read_steps(recorded: &RecordedFile<'_>) -> Steps
    ensures { masks_of result ≡ map (mask_at recorded.now.file.now) (range_with_len 0 recorded.now.contents.steps) }
{
    let mut steps = Steps::none();
    for record in Reader::at(recorded.file, 0).take(recorded.contents.steps) {
        steps.push(parties_in(record));
    }
    steps
}

// Its outcomes as rows.
fn read_rows(recorded: &RecordedFile<'_>) -> Table
    ensures { result.rows ≡ map (row_at recorded.now.file.now) (range_with_len 0 256) }
{
    let Contents { steps, outcomes } = recorded.contents;
    let mut table = Table::free();
    let records = Reader::at(recorded.file, steps);
    for (r, record) in (0..outcomes).zip(records) {
        table.put(r, row_in(record));
    }
    table
}

impl Draft {
    pub(crate) fn read(recorded: &RecordedFile<'_>) -> Draft
        ensures { Drafts recorded.now.file.now result }
    {
        Draft {
            contents: recorded.contents,
            steps: read_steps(recorded),
            table: read_rows(recorded),
        }
    }
}
