// One call of a line-up as a value, and what it answers.
ghost use Rattle.std.specs.Prelude.{◌≡◌};
ghost use Rattle.trial.specs.Steps.{answer_to, is_none, is_refused, keys_after, same_answer};

use lineup::{LineUp, Roll, RollRefusal, clear};

// A call: one of the roll's or the line-up's own, or that of all places to be taken out.
#[derive(Clone, Copy, Debug, PartialEq, Eq)]
pub enum Step {
    Put { place: usize, key: u64 },
    TakeOut { place: usize },
    KeyOf { place: usize },
    Front,
    Clear,
}

// What a call answers.
#[derive(Clone, Copy, Debug, PartialEq, Eq)]
pub enum Answer {
    // that it was done, or why not
    Done(Result<(), RollRefusal>),
    // the key of a place, or none
    Key(Option<u64>),
    // the place in front, or none
    Place(Option<usize>),
}

// Makes a call. Calls are values and not closures, so that what a list of calls answers can be defined call by call.
pub fn apply<L: LineUp>(line: &mut L, step: Step) -> Answer
    ensures answers { result ≡ answer_to (L.Roll.keys line.old) step }
    ensures leaves { L.Roll.keys line.new ≡ keys_after (L.Roll.keys line.old) step }
{
    match step {
        Step::Put { place, key } => Answer::Done(line.put(place, key)),
        Step::TakeOut { place } => Answer::Key(line.take_out(place)),
        Step::KeyOf { place } => Answer::Key(line.key_of(place)),
        Step::Front => Answer::Place(line.front()),
        Step::Clear => {
            clear(line);
            Answer::Done(Ok(()))
        }
    }
}

impl Answer {
    // Whether the call was refused.
    pub fn is_refused(self) -> bool
        ensures tells { result ≡ is_refused self }
    {
        matches!(self, Answer::Done(Err(_)))
    }

    // Whether a key or a place was asked for, and none was there.
    pub fn is_none(self) -> bool
        ensures tells { result ≡ is_none self }
    {
        matches!(self, Answer::Key(None) | Answer::Place(None))
    }
}

// What `==` tells of two answers is whether they are the same.
#[tactic(auto, using(crate::proofs::Runs::eq_is_same))]
pub fn equal_answers_are_the_same()
    ensures equality { (a b : Answer) → ⟦<Answer as PartialEq>⟧.eq a b ≡ same_answer a b }
{}
