// The table: a key or none for each place, searched from the start.
ghost use Rattle.std.specs.Prelude.{◌≡◌, length, refl};
ghost use Rattle.lineup.specs.Rolls.{table_places, no_keys};
ghost use Rattle.lineup.specs.Sizes.{as_many};

use crate::refusal::RollRefusal;
use crate::roll::{LineUp, Roll};
use crate::search::front_below;

// How many places a table has.
const PLACES: usize = 16;

#[derive(Drop)]
pub struct Table {
    keys: [Option<u64>; PLACES],
    ghost wide: { length keys ≡ table_places },
}

impl Table {
    // A table without a key.
    pub fn new() -> Self
        ensures is_empty { ⟦<Table as Roll>⟧.keys result ≡ no_keys table_places }
    {
        Table {
            keys: [None; PLACES],
        }
    }
}

impl Roll for Table {
    ghost keys = { λ t. t.keys };

    ghost sized = { λ t. as_many t.keys table_places t.wide refl };

    fn capacity(&self) -> usize {
        PLACES
    }

    fn key_of(&self, place: usize) -> Option<u64> {
        *self.keys.get(place)?
    }

    fn put(&mut self, place: usize, key: u64) -> Result<(), RollRefusal> {
        if place >= PLACES {
            return Err(RollRefusal::NoPlace);
        }
        // by its index: of what is written through a slice's `get_mut` a proof knows nothing afterwards
        self.keys[place] = Some(key);
        Ok(())
    }

    fn take_out(&mut self, place: usize) -> Option<u64> {
        let key = *self.keys.get(place)?;
        self.keys[place] = None;
        key
    }
}

impl LineUp for Table {
    fn front(&self) -> Option<usize> {
        front_below(self, self.capacity()).map(|e| e.place)
    }
}
