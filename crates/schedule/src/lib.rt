// The rules of the hub: how long an order is and what it costs its session, what a hub can be asked, what it answers and
// why it refuses. What the hub does with a call is written in specs/ as a plain machine, and what may be relied on over
// whole runs as laws of that machine; both are over natural numbers and lists and run no code.
#![tactic(auto)]

mod call;
mod format;
mod limits;
mod order;
mod refusal;

pub use call::{Answer, Call};
pub use format::{FEEDS, feed_length, most_copies, order_length};
pub use limits::{
    LEAST_SHARE, LIFE_LIMIT, LONGEST, RING, UNIT, check_ring, check_share, grown_life, span,
};
pub use order::{Order, State};
pub use refusal::Refusal;
