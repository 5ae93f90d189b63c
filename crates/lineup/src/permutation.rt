// All places of a heap in some order, and the position of each.
ghost use Rattle.std.specs.Prelude.{◌≡◌, ℕ, ◌<◌, slice_index};
ghost use Rattle.lineup.specs.Rolls.{heap_places};
ghost use Rattle.lineup.specs.Heaps.{LeadsBack, Swapped};

use std::array;

// How many places a heap has.
pub(crate) const PLACES: usize = 48;

// Every place stands at one position: `places` has the place at each position, `positions` the position of each place,
// so that each of the two leads back to where the other leads from. They are no row of pairs, since one is indexed by
// position and the other by place; and arrays, since a line-up never allocates.
#[derive(Drop)]
pub(crate) struct Permutation {
    pub(crate) places: [usize; PLACES],
    pub(crate) positions: [usize; PLACES],
    ghost placed: { LeadsBack places positions },
    ghost positioned: { LeadsBack positions places },
}

impl Permutation {
    // Each place at the position of its own number.
    pub(crate) fn new() -> Self
        ensures starts_in_sequence { (k : ℕ) → k < heap_places → slice_index result.positions k ≡ k }
    {
        let counted = array::from_fn(|i| i);
        Permutation {
            places: counted,
            positions: counted,
        }
    }

    // Two positions change their places, and these two places their positions.
    pub(crate) fn swap(&mut self, a: usize, b: usize)
        requires a_in_range { a < heap_places }
        requires b_in_range { b < heap_places }
        ensures swaps_the_places { Swapped (slice_index self.old.places) (slice_index self.new.places) a b }
        ensures swaps_their_positions { Swapped (slice_index self.old.positions) (slice_index self.new.positions)
            (slice_index self.old.places a) (slice_index self.old.places b) }
    {
        self.positions.swap(self.places[a], self.places[b]);
        self.places.swap(a, b);
    }
}
