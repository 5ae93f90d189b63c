// The limits of the rules, and what a length costs at a share.
ghost use Rattle.std.specs.Prelude.{◌≡◌, ◌+◌, ◌*◌, ◌<◌, ◌≤◌, [], ◌∷◌};
ghost use Rattle.schedule.specs.declared.refusal.Refusal.TheVariants.{ShareOutOfRange, LifeOver, RingFull};
ghost use Rattle.schedule.specs.Limits.{unit};
ghost use Rattle.schedule.specs.Orders.{span_of, bad_share, ring_full, life_over};
ghost use Rattle.schedule.specs.Refusals.{first_of, unless};

use crate::refusal::Refusal;

// The whole printer, in the parts that a share counts; also the largest share, and the most that is held at once.
pub const UNIT: u16 = 10_000;

// The smallest share.
pub const LEAST_SHARE: u16 = 50;

// The longest order in ticks.
pub const LONGEST: u16 = 3_000;

// Life, which grows with every link, order and pass, ends here.
pub const LIFE_LIMIT: u64 = 1 << 60;

// The most orders that wait at a station.
pub const RING: usize = 8;

// Refuses a share that is out of range.
pub fn check_share(share: u16) -> Result<(), Refusal>
    ensures refuses_shares_out_of_range { result ≡ unless (first_of ((bad_share share, ShareOutOfRange) ∷ [])) tt }
{
    if !(LEAST_SHARE..=UNIT).contains(&share) {
        return Err(Refusal::ShareOutOfRange);
    }
    Ok(())
}

// Refuses one order more where as many wait as a ring holds.
pub fn check_ring(waiting: usize) -> Result<(), Refusal>
    ensures refuses_a_full_ring { result ≡ unless (first_of ((ring_full waiting, RingFull) ∷ [])) tt }
{
    if waiting >= RING {
        return Err(Refusal::RingFull);
    }
    Ok(())
}

// Life and its growth together, or a refusal where they pass the limit.
pub fn grown_life(life: u64, growth: u64) -> Result<u64, Refusal>
    ensures is_the_sum_within_the_limit { result ≡ unless (first_of ((life_over life growth, LifeOver) ∷ [])) (life + growth) }
{
    life.checked_add(growth)
        .filter(|sum| *sum <= LIFE_LIMIT)
        .ok_or(Refusal::LifeOver)
}

// The span of a length: its time on a printer of one share, rounded up to whole ticks; 0 at no share.
#[tactic(auto, unfolding(crate::specs::Orders::span_of), using(crate::proofs::Spans::ceil_is, crate::proofs::Spans::length_within_span))]
pub fn span(len: u16, share: u16) -> u64
    ensures is_the_span { result ≡ span_of len share }
    ensures covers_the_length { 0 < share → len * unit ≤ share * result }
    ensures has_no_tick_too_many { 0 < share → share * result < len * unit + share }
    ensures is_no_faster_than_the_printer { 0 < share → share ≤ unit → len ≤ result }
{
    if share == 0 {
        return 0;
    }
    (u64::from(len) * u64::from(UNIT)).div_ceil(u64::from(share))
}
