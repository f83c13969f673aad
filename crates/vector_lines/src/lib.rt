// How a line of the fixed vectors is read: tokens, numbers and lists (oracle/README.md has their form). A function is given the line and a place in
// it, and answers the next place. Once something is malformed, or is not what was expected, the place is NOWHERE, and it stays NOWHERE.
#![tactic(auto)]

mod lists;
mod numbers;

pub use lists::{if_same, list};
pub use numbers::{Number, Read, expect, number_up_to};

// A number and no Option: each contract's definition reads on from `nowhere`, as from any place past the line's end, and fills what follows with zeros.
pub const NOWHERE: usize = 0xffff_ffff_ffff_ffff;
