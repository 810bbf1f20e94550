// The labels of a sheet's rows, in memory that the caller lends.
ghost use Rattle.std.specs.Prelude.{◌≡◌, length, slice_set};
ghost use Rattle.std.specs.Slice.{IsItemAt};

// A place for the label of each row; a place is written only with its row.
#[derive(Drop)]
pub struct Shelf<'a, K> {
    places: &'a mut [K],
}

impl<'a, K: Drop> Shelf<'a, K> {
    // A shelf over memory that holds labels already.
    pub fn over(places: &'a mut [K]) -> Shelf<'a, K>
        ensures labels { result.places.now ≡ places.old }
        ensures lender { result.places.ghost_name ≡ places.entry.ghost_name }
    {
        Shelf { places }
    }

    // How many places there are.
    pub fn room(&self) -> usize
        ensures { result ≡ length self.now.places.now }
    {
        self.places.len()
    }

    // The label of a row; none beyond the last place.
    pub fn get(&self, row: usize) -> Option<&K>
        ensures { IsItemAt self.now.places.now row result }
    {
        self.places.get(row)
    }

    // Writes the label of a row; a row beyond the last place changes nothing.
    #[tactic(auto, using(std::proofs::lemmas::List::set_past))]
    pub fn set(&mut self, row: usize, label: K)
        ensures labels { self.new.places.now ≡ slice_set self.old.places.now row label }
        ensures lender { self.new.places.ghost_name ≡ self.old.places.ghost_name }
    {
        // By index: of the places behind a `get_mut` the check is told nothing.
        if row < self.places.len() {
            self.places[row] = label;
        }
    }
}
