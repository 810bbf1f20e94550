// Flags, and pairs of values: which value becomes which.
ghost use Rattle.std.specs.Prelude.{◌≡◌, ◌/◌, ◌%◌, ◌<◌};
ghost use Rattle.analysis.specs.FlagsAlgebra.{same_flag, flipped};

use crate::bits::bit;

// How many values three flags have.
pub(crate) const VALUES: u8 = 8;

// One of the three flags.
#[derive(Clone, Copy)]
pub(crate) struct Flag {
    number: u8,
    ghost within: { number < 3 },
}

impl Flag {
    pub(crate) fn new(number: u8) -> Flag
        requires { number < 3 }
        ensures { result.number ≡ number }
    {
        Flag { number }
    }
}

// A value before, and one after.
#[derive(Clone, Copy)]
pub(crate) struct Pair {
    pub(crate) from: u8,
    pub(crate) to: u8,
    ghost within: { (from < 8) × (to < 8) },
}

impl Pair {
    pub(crate) fn new(from: u8, to: u8) -> Pair
        requires { (from < 8) × (to < 8) }
        ensures { (result.from ≡ from) × (result.to ≡ to) }
    {
        Pair { from, to }
    }

    // The pair that bit `k` of a relation stands for.
    pub(crate) fn at(k: u8) -> Pair
        requires { k < 64 }
        ensures { (result.from ≡ k / 8) × (result.to ≡ k % 8) }
    {
        Pair {
            from: k / VALUES,
            to: k % VALUES,
        }
    }

    // Whether the flag has one value on both sides.
    pub(crate) fn same_flag(self, flag: Flag) -> bool
        ensures { result ≡ same_flag flag.number self.from self.to }
    {
        bit(u64::from(self.from), flag.number) == bit(u64::from(self.to), flag.number)
    }

    // The pair with the flag flipped on both sides.
    pub(crate) fn flipped(self, flag: Flag) -> Pair
        ensures { (result.from ≡ flipped flag.number self.from) × (result.to ≡ flipped flag.number self.to) }
    {
        let bit = 1 << flag.number;
        Pair {
            from: self.from ^ bit,
            to: self.to ^ bit,
        }
    }
}
