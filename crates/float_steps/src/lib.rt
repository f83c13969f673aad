// Float steps: the operations on f32 that the compositor is made of, each with its result for every
// input. The definitions that the contracts cite are in specs/, in document 01's order.
#![tactic(auto)]

pub mod axis;
pub mod order;
pub mod remainder;
pub mod root;
pub mod sign;
pub mod whole;
pub mod words;
