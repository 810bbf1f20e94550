// Definitions: which settings reach the end.
ghost use Rattle.std.specs.Prelude.{◌^◌, ◌<◌};

pub mod as_kind;

// A bit for each of 64 definition sites: `keep` has the sites whose definitions from before survive, and `gens`, the gen
// set, those that are defined (`gen` is a keyword). Site b is owned by party b / 8.
#[derive(Clone, Copy, Debug, PartialEq, Eq)]
pub struct Definitions {
    keep: u64,
    gens: u64,
    ghost within: { (keep < 2 ^ 64) × (gens < 2 ^ 64) },
}
