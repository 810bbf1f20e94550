// The numbers of the format.

pub(crate) const BLOCK: usize = 512;

pub(crate) const HEADER: usize = 4;

// A block's bytes ahead of its check.
pub(crate) const SUMMED: usize = 508;

pub(crate) const MOST_BLOCKS: usize = 18;

pub(crate) const RECORDS_IN_BLOCK: usize = 9;

pub(crate) const MOST_BLANKS: usize = 8;

// A record's bytes between its step byte and its name.
pub(crate) const FIELDS: usize = 40;

// Where a record's name begins, behind the byte of its length.
pub(crate) const NAME: usize = 43;

pub(crate) const LONGEST_NAME: u8 = 13;

pub(crate) const FIRST_PRINTABLE: u8 = 33;

pub(crate) const LAST_PRINTABLE: u8 = 126;

pub(crate) const GREATEST_STEP: u8 = 31;

pub(crate) const MOST_OUTCOMES: usize = 128;
