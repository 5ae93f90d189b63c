// Formats of prints, and the lengths of orders.
ghost use Rattle.std.specs.Prelude.{◌≡◌, ◌+◌, ◌/◌, ◌≤◌, [], ◌∷◌, IfOk, Some, None};
ghost use Rattle.schedule.specs.declared.refusal.Refusal.TheVariants.{NoFormat, BadLength};
ghost use Rattle.schedule.specs.Limits.{longest};
ghost use Rattle.schedule.specs.Orders.{feed_of, length_of, no_format, length_conditions};
ghost use Rattle.schedule.specs.Refusals.{first_of, unless};

use crate::limits::LONGEST;
use crate::refusal::Refusal;

// The feed length of each format in millimetres, by its code.
// By a rule of the project it is a constant table with the code as its index, so a format stays a number; it has no other name.
pub const FEEDS: [u16; 16] = [
    51, 54, 89, 102, 100, 114, 127, 130, 152, 150, 165, 178, 203, 254, 305, 610,
];

// The feed length of a format.
#[tactic(auto, unfolding(crate::specs::Orders::feed_of))]
pub fn feed_length(format: u8) -> Result<u16, Refusal>
    ensures is_the_feed_length { result ≡ unless (first_of ((no_format format, NoFormat) ∷ [])) (feed_of format) }
    ensures is_in_range { IfOk result (λ n. (51 ≤ n) × (n ≤ 610)) }
{
    FEEDS
        .get(usize::from(format))
        .copied()
        .ok_or(Refusal::NoFormat)
}

// The length of an order: copies times feed length.
#[tactic(auto, unfolding(crate::specs::Orders::length_of))]
pub fn order_length(format: u8, copies: u8) -> Result<u16, Refusal>
    ensures is_the_length { result ≡ unless (first_of (length_conditions format copies)) (length_of format copies) }
    ensures is_in_range { IfOk result (λ n. (1 ≤ n) × (n ≤ longest)) }
{
    let feed = feed_length(format)?;
    let len = u32::from(copies) * u32::from(feed);
    if !(1..=u32::from(LONGEST)).contains(&len) {
        return Err(Refusal::BadLength);
    }
    Ok(len as u16)
}

// The most copies of a format that make an order.
#[tactic(auto, unfolding(crate::specs::Orders::length_of), using(crate::proofs::Lengths::most_fit, crate::proofs::Lengths::one_more, crate::proofs::Lengths::some_fit))]
pub fn most_copies(format: u8) -> Result<u8, Refusal>
    ensures is_the_most { result ≡ unless (first_of ((no_format format, NoFormat) ∷ [])) (longest / feed_of format) }
    ensures makes_an_order { IfOk result (λ n. first_of (length_conditions format n) ≡ None) }
    ensures one_more_is_too_long { IfOk result (λ n. first_of (length_conditions format (n + 1)) ≡ Some BadLength) }
{
    let feed = feed_length(format)?;
    Ok((LONGEST / feed) as u8)
}
