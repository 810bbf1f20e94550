// Cost as a kind of label.
ghost use Rattle.std.specs.Prelude.{◌≡◌};
ghost use Rattle.std.specs.Bool.{then_some};
ghost use Rattle.analysis.specs.declared.cost.Cost.{Cost};
ghost use Rattle.analysis.specs.CostAlgebra.{cost_algebra, capped, suitable};
ghost use Rattle.analysis.specs.CostLaws.{cost_laws};
ghost use Rattle.analysis.specs.LabelBytes.{least_in, most_in};

use crate::cost::Cost;
use crate::kind::Kind;
use crate::label_bytes::bytes_at;
use crate::parties::Parties;

const LIMIT: u32 = 1_000_000;

// Where the label bytes have the two halves.
const LEAST_AT: usize = 0;

const MOST_AT: usize = 4;

impl Cost {
    // Both halves, each stopping at the limit.
    fn capped(least: u32, most: u32) -> Cost
        ensures { result ≡ capped least most }
    {
        Cost {
            least: least.min(LIMIT),
            most: most.min(LIMIT),
        }
    }

    // The label in the label bytes, if they are suitable.
    fn spelled(bytes: &[u8; 32]) -> Option<Cost>
        ensures { result ≡ then_some (suitable bytes.now) (capped (least_in bytes.now) (most_in bytes.now)) }
    {
        let least = u32::from_be_bytes(bytes_at(bytes, LEAST_AT));
        let most = u32::from_be_bytes(bytes_at(bytes, MOST_AT));
        (least <= most && most <= LIMIT).then(|| Self::capped(least, most))
    }
}

impl Kind for Cost {
    ghost Value = { Cost };

    ghost value = { λ x. x };

    ghost algebra = { cost_algebra };

    ghost lawful = { cost_laws };

    fn unit() -> Cost {
        Self::capped(0, 0)
    }

    fn then(&self, other: &Cost) -> Cost {
        Self::capped(self.least + other.least, self.most + other.most)
    }

    fn either(&self, other: &Cost) -> Cost {
        Self::capped(self.least.min(other.least), self.most.max(other.most))
    }

    fn belongs(&self, _parties: Parties) -> bool {
        true
    }

    fn suits(bytes: &[u8; 32], _parties: Parties) -> bool {
        Self::spelled(bytes).is_some()
    }

    fn make(bytes: &[u8; 32], _parties: Parties) -> Cost {
        Self::spelled(bytes).unwrap_or(Self::unit())
    }

    fn tell(&self) -> (u64, u64) {
        (u64::from(self.least), u64::from(self.most))
    }
}
