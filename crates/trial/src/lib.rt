// Line-ups tried side by side: a list of calls is made of two line-ups, and their answers are compared.
#![tactic(auto)]

mod draw;
mod scan;
mod side_by_side;
mod step;
mod tally;

pub use draw::{draw_steps, step_of};
pub use scan::Scan;
pub use side_by_side::compare;
pub use step::{Answer, Step, apply, equal_answers_are_the_same};
pub use tally::Tally;
