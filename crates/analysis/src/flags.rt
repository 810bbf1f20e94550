// Flags: what may become of three flags.
ghost use Rattle.std.specs.Prelude.{◌^◌, ◌<◌};

pub mod as_kind;
mod pair;

// A relation over the eight values of three flags, where bit i of a value is flag i, owned by party i.
// Bit 8 × v + w says that v may become w.
#[derive(Clone, Copy, Debug, PartialEq, Eq)]
pub struct Flags {
    relation: u64,
    ghost within: { relation < 2 ^ 64 },
}
