// Reading the fields of the label bytes.
ghost use Rattle.std.specs.Prelude.{◌≡◌, ◌+◌, ◌≤◌};
ghost use Rattle.format.specs.Layout.{part};

// The N bytes from `at` on.
pub(crate) fn bytes_at<const N: usize>(bytes: &[u8; 32], at: usize) -> [u8; N]
    requires { at + N ≤ 32 }
    ensures { result ≡ part bytes.now at N }
{
    *bytes[at..].first_chunk().unwrap()
}
