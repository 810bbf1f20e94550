// The steps of a diagram by their parties.
ghost use Rattle.std.specs.Prelude.{◌≡◌, ◌≤◌, length};

use analysis::parties::Parties;

mod listing;

// The steps below `count`, the last of which is the end, by their parties; a step that was struck has none.
// A buffer with its length, since there is no heap and a sheet is `Copy`, which the library's `ArrayVec` is not.
#[derive(Clone, Copy)]
pub struct Steps {
    count: usize,
    parties: [Parties; 32],
    ghost long: { length parties ≡ 32 },
    ghost few: { count ≤ 32 },
}
