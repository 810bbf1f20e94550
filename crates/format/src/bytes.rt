// Questions about a part of the file.
ghost use Rattle.std.specs.Prelude.{◌≡◌, not};
ghost use Rattle.format.specs.Checks.{some_nonzero};

pub(crate) fn all_zero(part: &[u8]) -> bool
    ensures { result ≡ not (some_nonzero part.now) }
{
    part.iter().all(|b| *b == 0)
}
