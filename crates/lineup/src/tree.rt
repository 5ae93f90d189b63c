// The places that have a key, at the positions of a binary tree, and how one of them moves to where it belongs.
ghost use Rattle.std.specs.Prelude.{◌≡◌, ◌+◌, ◌*◌, ◌<◌, ◌≤◌, length, MatchOption, nat_lt};
ghost use Rattle.lineup.specs.Rolls.{heap_places, no_keys};
ghost use Rattle.lineup.specs.Heaps.{Members, parent, ButAround, Across, Swapped, LeastChild};

use crate::permutation::{PLACES, Permutation};

// The first `len` positions of `order` are the tree: the root at position 0, the children of position i at 2i + 1 and 2i + 2.
// The places without a key stand behind them, so that every change is a swap; a vector of the first `len` would have to lose and gain them.
#[derive(Drop)]
pub(crate) struct Tree {
    pub(crate) keys: [Option<u64>; PLACES],
    pub(crate) order: Permutation,
    pub(crate) len: usize,
    ghost wide: { length keys ≡ heap_places },
    ghost few: { len ≤ heap_places },
    ghost members: { Members keys order.positions len },
}

// The position above position `i`, or none at the root.
fn parent(i: usize) -> Option<usize>
    ensures answers_the_parent { MatchOption result (i ≡ 0) (λ up. (up < i) × (parent i ≡ up)) }
{
    Some(i.checked_sub(1)? / 2)
}

impl Tree {
    ghost use Rattle.lineup.specs.Trees.{ranks, root_of, IsHeaped};

    // A tree in which nothing stands.
    pub(crate) fn new() -> Self
        ensures has_no_key { result.keys ≡ no_keys heap_places }
        ensures is_heaped { IsHeaped result }
    {
        Tree {
            keys: [None; PLACES],
            order: Permutation::new(),
            len: 0,
        }
    }

    // Whether what stands at position `a` ranks before what stands at `b`: by its key, and by its place among equals.
    // A position is a plain number below `len`, which changes: a type of its own would have to name the tree.
    fn before(&self, a: usize, b: usize) -> bool
        requires a_in_the_tree { a < self.now.len }
        requires b_in_the_tree { b < self.now.len }
        ensures compares_ranks { result ≡ nat_lt (ranks self.now a) (ranks self.now b) }
    {
        let p = self.order.places[a];
        let q = self.order.places[b];
        (self.keys[p], p) < (self.keys[q], q)
    }

    // What stands at the root, if anything does.
    pub(crate) fn root(&self) -> Option<usize>
        ensures answers_the_root { result ≡ root_of self.now }
    {
        self.order.places[..self.len].first().copied()
    }

    // Two positions change what stands there.
    fn swap(&mut self, a: usize, b: usize)
        requires a_in_the_tree { a < self.old.len }
        requires b_in_the_tree { b < self.old.len }
        ensures keeps_the_keys { self.new.keys ≡ self.old.keys }
        ensures keeps_the_length { self.new.len ≡ self.old.len }
        ensures swaps_the_ranks { Swapped (ranks self.old) (ranks self.new) a b }
    {
        self.order.swap(a, b);
    }

    // The child of position `i` that ranks before the other, or none where it has no child.
    fn least_child(&self, i: usize) -> Option<usize>
        requires in_the_tree { i < self.now.len }
        ensures answers_the_least { MatchOption result (self.now.len ≤ 2 * i + 1)
            (LeastChild (ranks self.now) self.now.len i) }
    {
        let left = 2 * i + 1;
        let right = left + 1;
        if left >= self.len {
            None
        } else if right < self.len && self.before(right, left) {
            Some(right)
        } else {
            Some(left)
        }
    }

    // Moves what stands at `at` to where it belongs, up or down. Behind the tree there is nothing to move.
    #[tactic(auto, using(crate::proofs::Sifts::down_but, crate::proofs::Sifts::down_across))]
    pub(crate) fn settle(&mut self, at: usize)
        requires but_around { ButAround (ranks self.old) self.old.len at }
        requires across { Across (ranks self.old) self.old.len at }
        ensures keeps_the_keys { self.new.keys ≡ self.old.keys }
        ensures leaves_a_heap { IsHeaped self.new }
    {
        if at >= self.len {
            return;
        }
        let mut i = at;
        while let Some(up) = parent(i)
            && self.before(i, up)
        {
            self.swap(i, up);
            i = up;
        }
        // what has moved up ranks before all that stands below it now
        if i < at {
            return;
        }
        while let Some(child) = self.least_child(i)
            && self.before(child, i)
        {
            self.swap(i, child);
            i = child;
        }
    }
}
