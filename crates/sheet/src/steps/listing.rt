// Listing steps, one behind the other. Contracts name their masks by one word, `masks_of`: a model of a `Copy` type
// would have to give the fields back, by an invariant on what lies behind the count and a proof in specs/.
ghost use Rattle.std.specs.Prelude.{◌≡◌, ◌<◌, ◌≤◌, MatchOption, [], ◌∷◌, ◌++◌, length, slice_index};
ghost use Rattle.sheet.specs.Standing.{masks_of};

use crate::steps::Steps;
use analysis::parties::Parties;

const NOBODY: Parties = Parties { mask: 0 };

impl Steps {
    // No step.
    pub(crate) fn none() -> Steps
        ensures { masks_of result ≡ [] }
    {
        Steps {
            count: 0,
            parties: [NOBODY; 32],
        }
    }

    // Adds a step behind the last.
    pub(crate) fn push(&mut self, parties: Parties)
        requires { length (masks_of self.old) < 32 }
        ensures { masks_of self.new ≡ masks_of self.old ++ parties.mask ∷ [] }
    {
        let n = self.count;
        self.parties[n] = parties;
        self.count = n + 1;
    }

    // How many steps there are.
    #[tactic(auto, using(crate::proofs::Listed::length_masks))]
    pub(crate) fn count(&self) -> usize
        ensures { result ≡ length (masks_of self.now) }
    {
        self.count
    }

    // The parties of a step; none where there is no such step.
    pub(crate) fn get(&self, step: usize) -> Option<Parties>
        ensures { MatchOption result
            (length (masks_of self.now) ≤ step)
            (λ parties. (step < length (masks_of self.now)) × (parties.mask ≡ slice_index (masks_of self.now) step)) }
    {
        self.parties[..self.count].get(step).copied()
    }
}
