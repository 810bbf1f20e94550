// What a kind of label offers. A label means a value, and labels with equal values are the same label.
ghost use Rattle.std.specs.Prelude.{◌≡◌};
ghost use Rattle.analysis.specs.Algebra.{Algebra, Laws};
ghost use Rattle.analysis.specs.Parties.{members};

use crate::parties::Parties;

pub trait Kind: Sized {
    // The type of the values that labels mean.
    ghost Value: { Type 0 };

    // What a label means.
    ghost value: { Self → Value };

    // The operations on values.
    ghost algebra: { Algebra Value };

    // The label that changes nothing.
    fn unit() -> Self
        ensures { value result ≡ algebra.unit };

    // What this label does, followed by what the other does.
    fn then(&self, other: &Self) -> Self
        ensures { value result ≡ algebra.then (value self.now) (value other.now) };

    // What either of the two may do.
    fn either(&self, other: &Self) -> Self
        ensures { value result ≡ algebra.either (value self.now) (value other.now) };

    // Whether the label concerns no party outside the set.
    fn belongs(&self, parties: Parties) -> bool
        ensures { result ≡ algebra.belongs (value self.now) (members parties) };

    // Whether the label bytes of an outcome suit the set; the two stand apart, since kinds of others say this trait's functions.
    fn suits(bytes: &[u8; 32], parties: Parties) -> bool
        ensures { result ≡ algebra.suits bytes.now (members parties) };

    // The label that they make for the set, the unit where they do not suit it.
    fn make(bytes: &[u8; 32], parties: Parties) -> Self
        ensures { value result ≡ algebra.make bytes.now (members parties) };

    // The label as two numbers.
    fn tell(&self) -> (u64, u64)
        ensures { result ≡ algebra.tell (value self.now) };

    // What each kind has to show.
    ghost lawful: { Laws algebra };
}
