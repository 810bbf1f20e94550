// A set of parties.
ghost use Rattle.std.specs.Prelude.{◌≡◌};
ghost use Rattle.analysis.specs.Parties.{members};

use crate::bits::bit;

// A mask of eight bits, in which bit p stands for party p.
#[derive(Clone, Copy, Debug, PartialEq, Eq)]
pub struct Parties {
    pub mask: u8,
}

impl Parties {
    // Whether the party is in the set.
    pub fn has(self, party: u8) -> bool
        ensures { result ≡ members self party }
    {
        party < 8 && bit(u64::from(self.mask), party)
    }
}
