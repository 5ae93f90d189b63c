// Calls drawn by a pseudo-random generator: the same seed gives the same list.
ghost use Rattle.std.specs.Prelude.{◌≡◌, IfOk};
ghost use Rattle.trial.specs.Draws.{drawn, key_in, place_in, step_of, steps_from};

use crate::step::Step;
use std::alloc::{AllocError, Global};

// The next state of a linear congruential generator.
fn draw(state: u64) -> u64
    ensures draws { result ≡ drawn state }
{
    state
        .wrapping_mul(6_364_136_223_846_793_005)
        .wrapping_add(1_442_695_040_888_963_407)
}

// A place: below 72, so that some are past every capacity, or far out of range.
fn place_in(number: usize) -> usize
    ensures is_the_place { result ≡ place_in number }
{
    let low = number % 80;
    if low < 72 { low } else { usize::MAX - low }
}

// A key: below 49, so that many are equal, or the largest that there is.
// Not one function with place_in: the types and what lies past the limit differ, so that all would be parameters.
fn key_in(number: u64) -> u64
    ensures is_the_key { result ≡ key_in number }
{
    let low = number % 50;
    if low < 49 { low } else { u64::MAX }
}

// The call that a drawn number stands for. Of 256, 128 put, 64 take out, 32 ask for a key, 30 for the front, and 2 clear.
pub fn step_of(number: u64) -> Step
    ensures is_its_step { result ≡ step_of number }
{
    let place = place_in((number >> 16) as usize);
    let key = key_in(number >> 32);
    match number >> 56 {
        0..=127 => Step::Put { place, key },
        128..=191 => Step::TakeOut { place },
        192..=223 => Step::KeyOf { place },
        224..=253 => Step::Front,
        _ => Step::Clear,
    }
}

// So many calls, drawn from a seed.
pub fn draw_steps(heap: Global, seed: u64, count: usize) -> Result<Vec<Step>, AllocError>
    ensures draws_from_the_seed { IfOk result (λ v. v.items ≡ steps_from seed count) }
{
    let mut steps = Vec::new(heap);
    let mut state = seed;
    for _ in 0..count {
        state = draw(state);
        steps.push(step_of(state))?;
    }
    Ok(steps)
}
