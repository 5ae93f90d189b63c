// The heap: its places with a key stand in an indexed binary heap, the front at its root.
ghost use Rattle.std.specs.Prelude.{◌≡◌, ◌<◌, true, false, is_some, Some, None, slice_set, refl};
ghost use Rattle.lineup.specs.Rolls.{heap_places, key_at, no_keys};
ghost use Rattle.lineup.specs.Trees.{IsHeaped};
ghost use Rattle.lineup.specs.Sizes.{as_many};

use crate::permutation::PLACES;
use crate::refusal::RollRefusal;
use crate::roll::{LineUp, Roll};
use crate::tree::Tree;

#[derive(Drop)]
pub struct Heap {
    tree: Tree,
    ghost heaped: { IsHeaped tree },
}

impl Heap {
    // A heap without a key.
    pub fn new() -> Self
        ensures is_empty { ⟦<Heap as Roll>⟧.keys result ≡ no_keys heap_places }
    {
        Heap { tree: Tree::new() }
    }

    // Gives a key to a place that has none: it comes last and moves up.
    #[tactic(auto, using(crate::proofs::Ranks::rank_elsewhere))]
    fn insert(&mut self, place: usize, key: u64)
        requires in_range { place < heap_places }
        requires has_no_key { is_some (key_at self.old.tree.keys place) ≡ false }
        ensures sets_that_key_only { self.new.tree.keys ≡ slice_set self.old.tree.keys place (Some key) }
    {
        let tree = &mut self.tree;
        let at = tree.order.positions[place];
        let end = tree.len;
        tree.keys[place] = Some(key);
        tree.order.swap(end, at);
        tree.len = end + 1;
        tree.settle(end);
    }

    // Gives another key to a place that has one: it moves up or down from where it stands.
    fn replace(&mut self, place: usize, key: u64)
        requires has_a_key { is_some (key_at self.old.tree.keys place) ≡ true }
        ensures sets_that_key_only { self.new.tree.keys ≡ slice_set self.old.tree.keys place (Some key) }
    {
        let tree = &mut self.tree;
        let at = tree.order.positions[place];
        tree.keys[place] = Some(key);
        tree.settle(at);
    }

    // Removes a place that has a key: the last takes its position and moves up or down.
    // It stays a call, so that taking out a place without a key is no more than a test in each caller.
    #[tactic(auto, using(crate::proofs::Ranks::rank_elsewhere))]
    #[inline(never)]
    fn remove(&mut self, place: usize)
        requires has_a_key { is_some (key_at self.old.tree.keys place) ≡ true }
        ensures removes_that_key_only { self.new.tree.keys ≡ slice_set self.old.tree.keys place None }
    {
        prove!(place < PLACES);
        let tree = &mut self.tree;
        let gap = tree.order.positions[place];
        let last = tree.len - 1;
        tree.keys[place] = None;
        tree.order.swap(gap, last);
        tree.len = last;
        tree.settle(gap);
    }
}

impl Roll for Heap {
    ghost keys = { λ h. h.tree.keys };

    ghost sized = { λ h. as_many h.tree.keys heap_places h.tree.wide refl };

    // as the table's but for the number: the trait asks this line of each kind
    fn capacity(&self) -> usize {
        PLACES
    }

    fn key_of(&self, place: usize) -> Option<u64> {
        *self.tree.keys.get(place)?
    }

    fn put(&mut self, place: usize, key: u64) -> Result<(), RollRefusal> {
        let older = *self.tree.keys.get(place).ok_or(RollRefusal::NoPlace)?;
        match older {
            Some(_) => self.replace(place, key),
            None => self.insert(place, key),
        }
        Ok(())
    }

    fn take_out(&mut self, place: usize) -> Option<u64> {
        let key = self.key_of(place)?;
        self.remove(place);
        Some(key)
    }
}

impl LineUp for Heap {
    #[tactic(auto, using(crate::proofs::Heaped::root_is_front))]
    fn front(&self) -> Option<usize> {
        self.tree.root()
    }
}
