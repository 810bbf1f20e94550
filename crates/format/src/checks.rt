// A check, and what it answers where it fails.
ghost use Rattle.std.specs.Prelude.{◌≡◌, ℕ, not, [], ◌∷◌};
ghost use Rattle.format.specs.declared.faults.Fault.{Fault};
ghost use Rattle.format.specs.declared.faults.Fault.TheVariants.{Block, Record};
ghost use Rattle.format.specs.Refusals.{refusal_in, first_failing, check_of};

use crate::faults::{BlockCause, Fault, RecordCause};

// A cause of a layer, whose faults have a place.
pub(crate) trait Cause {
    // The fault of that cause at a place.
    ghost fault: { Self → ℕ → Fault };

    fn at(self, place: usize) -> Fault
        ensures { result ≡ fault self place };
}

impl Cause for BlockCause {
    ghost fault = { Block };

    fn at(self, place: usize) -> Fault {
        Fault::Block { cause: self, place }
    }
}

impl Cause for RecordCause {
    ghost fault = { Record };

    fn at(self, place: usize) -> Fault {
        Fault::Record { cause: self, place }
    }
}

// Refuses by the cause unless the check holds.
pub(crate) fn ensure<C: Cause + Drop>(holds: bool, cause: C, place: usize) -> Result<(), Fault>
    ensures { refusal_in result ≡ first_failing (check_of (C.fault cause place) (not holds) ∷ []) }
{
    if holds { Ok(()) } else { Err(cause.at(place)) }
}
