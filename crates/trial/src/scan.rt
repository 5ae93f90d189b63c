// A plain scan: a line-up that is nothing but a list of keys, looked through from its start.
// It shares no code with the other kinds, since it is what they are compared with.
ghost use Rattle.std.specs.Prelude.{◌≡◌, ◌≤◌, length, IfOk};
ghost use Rattle.lineup.specs.Rolls.{most_places, no_keys};
ghost use Rattle.lineup.specs.Front.{entry_of, sooner_of, front_entry};

use lineup::{Entry, LineUp, Roll, RollRefusal};
use std::alloc::{AllocError, Global};

// The key, or none, of each place.
#[derive(Drop)]
pub struct Scan {
    keys: Vec<Option<u64>>,
    ghost some: { 1 ≤ length keys.items },
    ghost few: { length keys.items ≤ most_places },
}

impl Scan {
    // A scan without a key, with as many places as a roll has.
    pub fn like<R: Roll>(heap: Global, roll: &R) -> Result<Self, AllocError>
        ensures is_empty_and_as_large { IfOk result (λ s. ⟦<Scan as Roll>⟧.keys s ≡ no_keys (length (R.Roll.keys roll.now))) }
    {
        let keys = vec![in heap; None; roll.capacity()]?;
        Ok(Scan { keys })
    }
}

impl Roll for Scan {
    ghost keys = { λ s. s.keys.items };

    ghost sized = { λ s. (s.some, s.few) };

    fn capacity(&self) -> usize {
        self.keys.len()
    }

    fn key_of(&self, place: usize) -> Option<u64> {
        *self.keys.get(place)?
    }

    fn put(&mut self, place: usize, key: u64) -> Result<(), RollRefusal> {
        let held = self.keys.get_mut(place).ok_or(RollRefusal::NoPlace)?;
        *held = Some(key);
        Ok(())
    }

    fn take_out(&mut self, place: usize) -> Option<u64> {
        self.keys.get_mut(place)?.take()
    }
}

// The better of the best so far and one place more.
fn better(best: Option<Entry>, place: usize, key: Option<u64>) -> Option<Entry>
    ensures answers_the_better { result ≡ sooner_of best (entry_of place key) }
{
    match (best, key) {
        (_, None) => best,
        (None, Some(key)) => Some(Entry { place, key }),
        (Some(so_far), Some(key)) => {
            if key < so_far.key {
                Some(Entry { place, key })
            } else {
                best
            }
        }
    }
}

// The entry in front.
#[tactic(auto, using(lineup::proofs::Joins::search_step))]
fn soonest(keys: &[Option<u64>]) -> Option<Entry>
    ensures answers_the_front { result ≡ front_entry keys.now }
{
    let mut best = None;
    for (place, key) in keys.iter().enumerate() {
        best = better(best, place, *key);
    }
    best
}

impl LineUp for Scan {
    fn front(&self) -> Option<usize> {
        soonest(&self.keys).map(|e| e.place)
    }
}
