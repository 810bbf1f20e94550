// A sheet: empty, or a lawful diagram.
ghost use Rattle.sheet.specs.Standing.{EmptyOrLawful, standing_in};

use crate::steps::Steps;
use crate::table::Table;

pub mod reading;

// The steps that stand and the table of rows. No sheet exists that is neither empty nor a lawful diagram.
#[derive(Clone, Copy)]
pub struct Sheet {
    steps: Steps,
    table: Table,
    ghost lawful: { EmptyOrLawful (standing_in steps table) },
}
