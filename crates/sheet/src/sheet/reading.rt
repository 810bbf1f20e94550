// Looking at a sheet.
ghost use Rattle.std.specs.Prelude.{◌≡◌};
ghost use Rattle.sheet.specs.Calls.{standing};
ghost use Rattle.sheet.specs.Standing.{nothing, is_empty};

use crate::sheet::Sheet;
use crate::steps::Steps;
use crate::table::Table;

impl Sheet {
    // A sheet with nothing on it.
    pub fn empty() -> Sheet
        ensures { standing result ≡ nothing }
    {
        Sheet {
            steps: Steps::none(),
            table: Table::free(),
        }
    }

    // Whether nothing is on it.
    pub fn is_empty(&self) -> bool
        ensures { result ≡ is_empty (standing self.now) }
    {
        self.steps.count() == 0
    }
}
