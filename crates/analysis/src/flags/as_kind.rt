// Flags as a kind of label.
ghost use Rattle.std.specs.Prelude.{◌≡◌, ◌/◌, ◌%◌, true, false, MatchOption};
ghost use Rattle.numbers.specs.Below.{some_below};
ghost use Rattle.analysis.specs.Parties.{members};
ghost use Rattle.analysis.specs.declared.flags.Flags.{Flags};
ghost use Rattle.analysis.specs.FlagsAlgebra.{may, through, strays, stays_within, flags_algebra};
ghost use Rattle.analysis.specs.FlagsMeaning.{CompositionIsRelational, WorkedComposition};
ghost use Rattle.analysis.specs.FlagsLaws.{flags_laws};
ghost use Rattle.analysis.specs.LabelBytes.{relation_in};

use crate::bits::bit;
use crate::flags::Flags;
use crate::flags::pair::{Flag, Pair, VALUES};
use crate::kind::Kind;
use crate::label_bytes::bytes_at;
use crate::parties::Parties;

const PAIRS: u8 = 64;

const FLAGS: u8 = 3;

// Where the label bytes have the relation.
const RELATION_AT: usize = 8;

// Each value may become itself.
const SAME: u64 = 0x8040_2010_0804_0201;

impl Flags {
    // Whether the one value may become the other.
    fn may(self, pair: Pair) -> bool
        ensures { result ≡ may self.relation pair.from pair.to }
    {
        bit(self.relation, VALUES * pair.from + pair.to)
    }

    // Whether it may by this and then the other relation.
    fn through(self, other: Flags, pair: Pair) -> bool
        ensures { result ≡ through self.relation other.relation pair.from pair.to }
    {
        (0..VALUES).any(|u| self.may(Pair::new(pair.from, u)) && other.may(Pair::new(u, pair.to)))
    }

    // Whether the pair is there, but changes the flag, or is not there with the flag flipped.
    fn strays(self, flag: Flag, pair: Pair) -> bool
        ensures { result ≡ strays self.relation flag.number pair.from pair.to }
    {
        self.may(pair) && !(pair.same_flag(flag) && self.may(pair.flipped(flag)))
    }

    // Whether the relation changes the flag or depends on it.
    fn concerns(self, flag: Flag) -> bool
        ensures { result ≡ some_below 64 (λ k. strays self.relation flag.number (k / 8) (k % 8)) }
    {
        (0..PAIRS).any(|k| self.strays(flag, Pair::at(k)))
    }

    // Whether the relation concerns only flags of the set.
    fn stays_within(self, parties: Parties) -> bool
        ensures { result ≡ stays_within self.relation (members parties) }
    {
        (0..FLAGS).all(|number| parties.has(number) || !self.concerns(Flag::new(number)))
    }

    // The label in the label bytes, if it stays within the set.
    fn spelled_for(bytes: &[u8; 32], parties: Parties) -> Option<Flags>
        ensures { let suits = stays_within (relation_in bytes.now) (members parties) in
            MatchOption result (suits ≡ false) (λ x. (suits ≡ true) × (x.relation ≡ relation_in bytes.now)) }
    {
        let label = Flags {
            relation: u64::from_be_bytes(bytes_at(bytes, RELATION_AT)),
        };
        label.stays_within(parties).then_some(label)
    }
}

impl Kind for Flags {
    ghost Value = { Flags };

    ghost value = { λ x. x };

    ghost algebra = { flags_algebra };

    ghost lawful = { flags_laws };

    fn unit() -> Flags {
        Flags { relation: SAME }
    }

    fn then(&self, other: &Flags) -> Flags {
        let relation = (0..PAIRS)
            .filter(|&k| self.through(*other, Pair::at(k)))
            .fold(0, |relation, k| relation | 1 << k);
        Flags { relation }
    }

    fn either(&self, other: &Flags) -> Flags {
        Flags {
            relation: self.relation | other.relation,
        }
    }

    fn belongs(&self, parties: Parties) -> bool {
        self.stays_within(parties)
    }

    fn suits(bytes: &[u8; 32], parties: Parties) -> bool {
        Self::spelled_for(bytes, parties).is_some()
    }

    fn make(bytes: &[u8; 32], parties: Parties) -> Flags {
        Self::spelled_for(bytes, parties).unwrap_or(Self::unit())
    }

    fn tell(&self) -> (u64, u64) {
        (self.relation, 0)
    }
}

// Composition is relational composition.
pub fn composition_is_relational_holds()
    ensures { CompositionIsRelational }
{}

// A composition worked by hand.
pub fn worked_composition_holds()
    ensures { WorkedComposition }
{}
