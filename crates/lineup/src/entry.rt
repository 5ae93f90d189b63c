// A place with its key, and which of two comes sooner.
ghost use Rattle.std.specs.Prelude.{◌≡◌, ◌+◌, ◌^◌, ◌<◌, MatchOption};
ghost use Rattle.lineup.specs.Rolls.{key_at};
ghost use Rattle.lineup.specs.Front.{entry_of, moved, sooner_of};

use crate::roll::Roll;

// A place with its key.
#[derive(Clone, Copy, Debug, PartialEq, Eq)]
pub struct Entry {
    pub place: usize,
    pub key: u64,
}

// A place of a roll with its key, if it has one.
pub(crate) fn entry_at<R: Roll>(roll: &R, place: usize) -> Option<Entry>
    ensures answers_the_entry { result ≡ entry_of place (key_at (R.Roll.keys roll.now) place) }
{
    let key = roll.key_of(place)?;
    Some(Entry { place, key })
}

// The first of two, unless the second has a lesser key.
pub(crate) fn sooner(first: Option<Entry>, second: Option<Entry>) -> Option<Entry>
    ensures answers_the_sooner { result ≡ sooner_of first second }
{
    match (first, second) {
        (Some(e), Some(f)) if e.key <= f.key => first,
        (_, None) => first,
        _ => second,
    }
}

// What is found, so many places further on.
pub(crate) fn further(found: Option<Entry>, places: usize) -> Option<Entry>
    requires { MatchOption found Unit (λ e. e.place + places < 2 ^ 64) }
    ensures moves_it_on { result ≡ moved places found }
{
    found.map(|e| Entry {
        place: e.place + places,
        ..e
    })
}
