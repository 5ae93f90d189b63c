// What came of many calls, counted.
ghost use Rattle.std.specs.Prelude.{◌≡◌};
ghost use Rattle.trial.specs.Tallies.{counted, count_if, no_calls};

use crate::step::Answer;

// How many calls were made, were refused and found none, and in how many two line-ups answered differently.
#[derive(Clone, Copy, Debug, Default, PartialEq, Eq)]
pub struct Tally {
    pub calls: u64,
    pub refused: u64,
    pub none: u64,
    pub differing: u64,
}

// One more if it is so. A count stays at the largest u64 once it is there.
fn count_if(so: bool, count: u64) -> u64
    ensures counts { result ≡ count_if so count }
{
    count.saturating_add(u64::from(so))
}

impl Tally {
    // Nothing counted yet.
    pub fn new() -> Self
        ensures is_empty { result ≡ no_calls }
    {
        Tally::default()
    }

    // One call more: the answer to it, and that of another line-up.
    pub fn count(&mut self, answer: Answer, other: Answer)
        ensures counts { self.new ≡ counted self.old answer other }
    {
        self.calls = count_if(true, self.calls);
        self.refused = count_if(answer.is_refused(), self.refused);
        self.none = count_if(answer.is_none(), self.none);
        self.differing = count_if(answer != other, self.differing);
    }
}
