// What a roll and a line-up are. Code above is written and proved against these two traits alone.
ghost use Rattle.std.specs.Prelude.{◌≡◌, ℕ, ◌≤◌, List, length, Some, None, Option, slice_set};
ghost use Rattle.lineup.specs.Rolls.{most_places, key_at, put_answer};
ghost use Rattle.lineup.specs.Front.{front_of};

use crate::refusal::RollRefusal;

// A roll: a fixed number of places, its capacity, and a key or none at each.
// A place that is not below the capacity has no key; it can be asked for and taken out, which changes nothing.
pub trait Roll {
    // the key, or none, of each place: all that a roll means, and as long as its capacity
    ghost keys: { Self → List (Option ℕ) };

    // How many places there are.
    fn capacity(&self) -> usize
        ensures counts_the_places { result ≡ length (keys self.now) };

    // The key of a place, or none.
    fn key_of(&self, place: usize) -> Option<u64>
        ensures answers_the_key { result ≡ key_at (keys self.now) place };

    // Gives a place a key, replacing an older one. Refused only where the place is not below the capacity; nothing changes then.
    fn put(&mut self, place: usize, key: u64) -> Result<(), RollRefusal>
        ensures refuses_places_beyond { result ≡ put_answer (keys self.old) place }
        ensures sets_that_key_only { keys self.new ≡ slice_set (keys self.old) place (Some key) };

    // Removes a place and answers its key, or none.
    fn take_out(&mut self, place: usize) -> Option<u64>
        ensures answers_the_key { result ≡ key_at (keys self.old) place }
        ensures removes_that_key_only { keys self.new ≡ slice_set (keys self.old) place None };

    // a law, since it stands below the last function: a capacity is 1 to 64
    ghost sized: { (x : Self) → (1 ≤ length (keys x)) × (length (keys x) ≤ most_places) };
}

// A line-up: a roll that also has a front.
pub trait LineUp: Roll {
    // The place with the least key, the lowest place among equals, or none where no place has a key.
    fn front(&self) -> Option<usize>
        ensures answers_the_front { result ≡ front_of (Self.Roll.keys self.now) };
}
