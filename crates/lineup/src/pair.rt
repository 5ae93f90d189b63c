// The pair: two line-ups as one.
ghost use Rattle.std.specs.Prelude.{◌≡◌, length, take};
ghost use Rattle.lineup.specs.Rolls.{no_keys};
ghost use Rattle.lineup.specs.Front.{front_entry};
ghost use Rattle.lineup.specs.Pairs.{joint, side_of, StandsFor};
ghost use Rattle.lineup.specs.Sizes.{joint_sized};

use crate::any::{clear, front_with_key};
use crate::entry::{Entry, further, sooner};
use crate::refusal::RollRefusal;
use crate::roll::{LineUp, Roll};
use crate::search::front_below;

// The most places that a roll has.
const MOST: usize = 64;

// The low places are the first's, the others the second's, up to 64 places in all.
// What the second has beyond those is none of the pair's.
#[derive(Drop)]
pub struct Pair<A: LineUp, B: LineUp> {
    first: A,
    second: B,
}

// Where a place of a pair stands.
#[derive(Clone, Copy)]
enum Side {
    // at this place of the first
    First(usize),
    // at this place of the second
    Second(usize),
}

// Where a place stands, if the first has `own` places, or none where no pair has so many places.
fn side_of(own: usize, place: usize) -> Option<Side>
    ensures is_its_side { result ≡ side_of own place }
{
    if place < own {
        Some(Side::First(place))
    } else if place < MOST {
        Some(Side::Second(place - own))
    } else {
        None
    }
}

// The front among the first `room` places, with its key: the line-up's own if it is one of them, else by a search.
#[tactic(auto, using(crate::proofs::Fronts::front_kept, crate::proofs::Fronts::front_none_kept))]
fn front_within<L: LineUp>(line: &L, room: usize) -> Option<Entry>
    ensures answers_their_front { result ≡ front_entry (take room (L.Roll.keys line.now)) }
{
    let front = front_with_key(line)?;
    if front.place < room {
        Some(front)
    } else {
        front_below(line, room)
    }
}

impl<A: LineUp, B: LineUp> Pair<A, B> {
    // A pair of two line-ups as they are: the keys that they hold stay.
    pub fn new(first: A, second: B) -> Self
        ensures holds_the_first { result.first ≡ first }
        ensures holds_the_second { result.second ≡ second }
    {
        Pair { first, second }
    }

    // A pair without a key: all places of both are taken out first.
    pub fn empty(first: A, second: B) -> Self
        ensures empties_the_first { A.Roll.keys result.first ≡ no_keys (length (A.Roll.keys first)) }
        ensures empties_the_second { B.Roll.keys result.second ≡ no_keys (length (B.Roll.keys second)) }
    {
        let mut pair = Pair { first, second };
        clear(&mut pair.first);
        clear(&mut pair.second);
        pair
    }

    // Where a place stands, or none where it is not the pair's.
    #[tactic(auto, using(crate::proofs::Pairing::stands_for))]
    fn side(&self, place: usize) -> Option<Side>
        ensures stands_for_it { StandsFor (A.Roll.keys self.now.first) (B.Roll.keys self.now.second) place result }
    {
        side_of(self.first.capacity(), place)
    }
}

impl<A: LineUp, B: LineUp> Roll for Pair<A, B> {
    ghost keys = { λ p. joint (A.Roll.keys p.first) (B.Roll.keys p.second) };

    ghost sized = { λ p. joint_sized (A.Roll.keys p.first) (B.Roll.keys p.second) (A.Roll.sized p.first) };

    fn capacity(&self) -> usize {
        self.first
            .capacity()
            .saturating_add(self.second.capacity())
            .min(MOST)
    }

    // one match for each call: a function over the two would take a closure for either, since their types differ
    fn key_of(&self, place: usize) -> Option<u64> {
        match self.side(place)? {
            Side::First(at) => self.first.key_of(at),
            Side::Second(at) => self.second.key_of(at),
        }
    }

    fn put(&mut self, place: usize, key: u64) -> Result<(), RollRefusal> {
        match self.side(place).ok_or(RollRefusal::NoPlace)? {
            Side::First(at) => self.first.put(at, key),
            Side::Second(at) => self.second.put(at, key),
        }
    }

    fn take_out(&mut self, place: usize) -> Option<u64> {
        match self.side(place)? {
            Side::First(at) => self.first.take_out(at),
            Side::Second(at) => self.second.take_out(at),
        }
    }
}

impl<A: LineUp, B: LineUp> LineUp for Pair<A, B> {
    #[tactic(auto, using(crate::proofs::Pairing::pair_front))]
    fn front(&self) -> Option<usize> {
        let own = self.first.capacity();
        let low = front_with_key(&self.first);
        let high = front_within(&self.second, MOST - own);
        sooner(low, further(high, own)).map(|e| e.place)
    }
}
