// Two line-ups side by side.
ghost use Rattle.std.specs.Prelude.{◌≡◌};
ghost use Rattle.trial.specs.Steps.{answer_to, keys_after, keys_after_all};
ghost use Rattle.trial.specs.Tallies.{counted, no_calls, tallied};

use crate::step::{Step, apply};
use crate::tally::Tally;
use lineup::LineUp;

// Makes one call of both line-ups and counts their answers.
fn apply_to_both<L: LineUp, M: LineUp>(line: &mut L, other: &mut M, step: Step, tally: &mut Tally)
    ensures counts_the_answers { tally.new ≡ counted tally.old (answer_to (L.Roll.keys line.old) step) (answer_to (M.Roll.keys other.old) step) }
    ensures leaves_the_keys { L.Roll.keys line.new ≡ keys_after (L.Roll.keys line.old) step }
    ensures leaves_the_others_keys { M.Roll.keys other.new ≡ keys_after (M.Roll.keys other.old) step }
{
    tally.count(apply(line, step), apply(other, step));
}

// Makes each call of both line-ups and counts their answers.
// Two line-ups that hold the same keys, of whatever kind they are, answer every call alike and hold the same keys afterwards.
pub fn compare<L: LineUp, M: LineUp>(line: &mut L, other: &mut M, steps: &[Step]) -> Tally
    ensures tallies_every_call { result ≡ tallied no_calls (L.Roll.keys line.old) (M.Roll.keys other.old) steps.now }
    ensures leaves_the_keys { L.Roll.keys line.new ≡ keys_after_all (L.Roll.keys line.old) steps.now }
    ensures leaves_the_others_keys { M.Roll.keys other.new ≡ keys_after_all (M.Roll.keys other.old) steps.now }
    ensures same_keys_same_answers { L.Roll.keys line.old ≡ M.Roll.keys other.old → result.differing ≡ 0 }
{
    let mut tally = Tally::new();
    for step in steps {
        apply_to_both(line, other, *step, &mut tally);
    }
    tally
}
