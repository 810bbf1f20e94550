// Questions about sets of parties.
ghost use Rattle.std.specs.Prelude.{◌≡◌, not};
ghost use Rattle.analysis.specs.Parties.{members};
ghost use Rattle.sheet.specs.DiagramLayer.{lacks_one, first_parties};

use analysis::parties::Parties;

pub(crate) const MOST_PARTIES: u8 = 8;

// Whether the second set has every party of the first.
pub(crate) fn lies_within(inner: Parties, outer: Parties) -> bool
    ensures { result ≡ not (lacks_one (members inner) (members outer)) }
{
    (0..MOST_PARTIES).all(|p| !inner.has(p) || outer.has(p))
}

// Whether the parties are those below some number.
#[tactic(auto, using(crate::proofs::Masks::power_first))]
pub(crate) fn are_first(parties: Parties) -> bool
    ensures { result ≡ first_parties parties.mask }
{
    (u16::from(parties.mask) + 1).is_power_of_two()
}
