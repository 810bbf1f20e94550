// Definitions as a kind of label.
ghost use Rattle.std.specs.Prelude.{◌≡◌};
ghost use Rattle.std.specs.Bool.{then_some};
ghost use Rattle.analysis.specs.declared.definitions.Definitions.{Definitions};
ghost use Rattle.analysis.specs.DefinitionsAlgebra.{definitions_algebra, confined, spelled};
ghost use Rattle.analysis.specs.Parties.{members};
ghost use Rattle.analysis.specs.DefinitionsLaws.{definitions_laws};

use crate::bits::bit;
use crate::definitions::Definitions;
use crate::kind::Kind;
use crate::label_bytes::bytes_at;
use crate::parties::Parties;

const SITES: u8 = 64;

const SITES_OF_PARTY: u8 = 8;

// Where the label bytes have the two numbers.
const KEEP_AT: usize = 16;

const GENS_AT: usize = 24;

impl Definitions {
    // Whether each site's owner is in the set, or else the site is left as it was.
    fn confined(self, parties: Parties) -> bool
        ensures { result ≡ confined self (members parties) }
    {
        (0..SITES).all(|site| {
            parties.has(site / SITES_OF_PARTY) || bit(self.keep, site) && !bit(self.gens, site)
        })
    }

    // The label in the label bytes, if it is confined to the set.
    fn spelled_for(bytes: &[u8; 32], parties: Parties) -> Option<Definitions>
        ensures { result ≡ then_some (confined (spelled bytes.now) (members parties)) (spelled bytes.now) }
    {
        let label = Definitions {
            keep: u64::from_be_bytes(bytes_at(bytes, KEEP_AT)),
            gens: u64::from_be_bytes(bytes_at(bytes, GENS_AT)),
        };
        label.confined(parties).then_some(label)
    }
}

impl Kind for Definitions {
    ghost Value = { Definitions };

    ghost value = { λ x. x };

    ghost algebra = { definitions_algebra };

    ghost lawful = { definitions_laws };

    // Every site kept, and none defined.
    fn unit() -> Definitions {
        Definitions {
            keep: u64::MAX,
            gens: 0,
        }
    }

    fn then(&self, other: &Definitions) -> Definitions {
        Definitions {
            keep: self.keep & other.keep,
            gens: (self.gens & other.keep) | other.gens,
        }
    }

    fn either(&self, other: &Definitions) -> Definitions {
        Definitions {
            keep: self.keep | other.keep,
            gens: self.gens | other.gens,
        }
    }

    fn belongs(&self, parties: Parties) -> bool {
        self.confined(parties)
    }

    fn suits(bytes: &[u8; 32], parties: Parties) -> bool {
        Self::spelled_for(bytes, parties).is_some()
    }

    fn make(bytes: &[u8; 32], parties: Parties) -> Definitions {
        Self::spelled_for(bytes, parties).unwrap_or(Self::unit())
    }

    fn tell(&self) -> (u64, u64) {
        (self.keep, self.gens)
    }
}
