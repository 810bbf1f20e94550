// Reading a number's bits.
ghost use Rattle.std.specs.Prelude.{◌≡◌, ◌<◌};
ghost use Rattle.numbers.specs.Bits.{bit};

// Whether bit `k` is set.
pub(crate) fn bit(number: u64, k: u8) -> bool
    requires { k < 64 }
    ensures { result ≡ bit number k }
{
    (number >> k) % 2 == 1
}
