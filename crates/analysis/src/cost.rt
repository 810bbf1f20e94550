// Cost: the charge that a sequence can use.
ghost use Rattle.std.specs.Prelude.{◌≤◌};

pub mod as_kind;

// The least and the most charge, in microampere-hours, each at most 1,000,000.
#[derive(Clone, Copy, Debug, PartialEq, Eq)]
pub struct Cost {
    least: u32,
    most: u32,
    ghost within: { (least ≤ 1000000) × (most ≤ 1000000) },
}
