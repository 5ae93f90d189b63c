// Rolls and line-ups: places with keys, and which of them is in front.
// A roll has a fixed number of places, numbered from 0; each place has one key or none.
// A line-up is a roll that also tells which place is in front: the one with the least key.
#![tactic(auto)]

mod any;
mod entry;
mod heap;
mod pair;
mod permutation;
mod refusal;
mod roll;
mod search;
mod table;
mod tree;

pub use any::{clear, front_with_key};
pub use entry::Entry;
pub use heap::Heap;
pub use pair::Pair;
pub use refusal::RollRefusal;
pub use roll::{LineUp, Roll};
pub use search::every_list_has_one_front;
pub use table::Table;
