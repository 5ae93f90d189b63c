// Code over any roll and any line-up, whoever wrote it.
ghost use Rattle.std.specs.Prelude.{◌≡◌, length};
ghost use Rattle.lineup.specs.Rolls.{no_keys};
ghost use Rattle.lineup.specs.Front.{front_entry};

use crate::entry::{Entry, entry_at};
use crate::roll::{LineUp, Roll};

// Takes every place out.
pub fn clear<R: Roll>(roll: &mut R)
    ensures no_key_is_left { R.keys roll.new ≡ no_keys (length (R.keys roll.old)) }
{
    for place in 0..roll.capacity() {
        roll.take_out(place);
    }
}

// The place in front with its key, or none.
#[tactic(auto, using(crate::proofs::Fronts::entry_is, crate::proofs::Fronts::entry_none))]
pub fn front_with_key<L: LineUp>(line: &L) -> Option<Entry>
    ensures answers_the_front { result ≡ front_entry (L.Roll.keys line.now) }
{
    entry_at(line, line.front()?)
}
