// The verdict on a text of vectors: its lines, the kind of each, and how many of a kind are answered right and wrong.
#![tactic(auto)]

mod judging;
mod lines;
mod reading;
mod tally;

pub use judging::{Answering, judge};
pub use lines::{asked, first};
pub use reading::read_text;
pub use tally::Tally;
