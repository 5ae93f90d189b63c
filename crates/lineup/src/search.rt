// The front of any roll, searched from the start.
ghost use Rattle.std.specs.Prelude.{◌≡◌, take};
ghost use Rattle.lineup.specs.Front.{front_entry, OneFront};

use crate::entry::{Entry, entry_at, sooner};
use crate::roll::Roll;

// The front among the places below `end`, with its key.
#[tactic(auto, using(crate::proofs::Joins::search_step))]
pub(crate) fn front_below<R: Roll>(roll: &R, end: usize) -> Option<Entry>
    ensures answers_their_front { result ≡ front_entry (take end (R.Roll.keys roll.now)) }
{
    let mut best = None;
    for place in 0..end {
        best = sooner(best, entry_at(roll, place));
    }
    best
}

// Every list of keys has one front and no other. Nothing is computed: the promise is the theorem.
#[tactic(auto, using(crate::proofs::Fronts::one_front))]
pub fn every_list_has_one_front()
    ensures one_front { OneFront }
{}
