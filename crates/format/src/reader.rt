// Goes through a file record by record, stepping over the blocks' headers and checks.
ghost use Rattle.std.specs.Prelude.{◌≡◌, ◌+◌, ◌<◌, ◌≤◌, MatchOption};
ghost use Rattle.std.specs.Iterator.{YieldsFirstRef, MakesProgress, item_count};
ghost use Rattle.format.specs.Layout.{record_count, record_of};
ghost use Rattle.format.specs.Reading.{records_left};

use crate::layout::{BLOCK, HEADER, RECORDS_IN_BLOCK, SUMMED};

// How many bytes a record has.
pub const RECORD: usize = 56;

// The file and the place of the record that comes next.
#[derive(Drop)]
pub struct Reader<'a> {
    file: &'a [u8],
    place: usize,
}

impl<'a> Reader<'a> {
    pub fn at(file: &'a [u8], place: usize) -> Reader<'a>
        ensures file { result.file.now ≡ file.now }
        ensures place { result.place ≡ place }
    {
        Reader { file, place }
    }
}

impl<'a> Iterator for Reader<'a> {
    type Item = &'a [u8; RECORD];

    ghost next_gives = { YieldsFirstRef records_left };

    ghost remaining = { item_count records_left };

    // The next record, a part of one block; none where the whole blocks have no more.
    fn next(&mut self) -> Option<&'a [u8; RECORD]>
        ensures steps { YieldsFirstRef records_left self.old result self.new }
        ensures goes { MakesProgress (λ (_ : Reader). Unit {0}) (item_count records_left) self.old result self.new }
        ensures file { self.new.file.now ≡ self.old.file.now }
        ensures read { MatchOption result
            ((record_count self.old.file.now ≤ self.old.place) × (self.new.place ≡ self.old.place))
            (λ rec. (self.old.place < record_count self.old.file.now)
            × (self.new.place ≡ self.old.place + 1)
            × (rec.now ≡ record_of self.old.file.now self.old.place)) }
    {
        let (blocks, _) = self.file.as_chunks::<BLOCK>();
        let block = blocks.get(self.place / RECORDS_IN_BLOCK)?;
        let (records, _) = block[HEADER..SUMMED].as_chunks::<RECORD>();
        let record = &records[self.place % RECORDS_IN_BLOCK];
        self.place += 1;
        Some(record)
    }
}
