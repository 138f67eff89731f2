// What all parts of the market share.
#![tactic(auto)]

pub mod bounds;
pub mod order;
pub mod refusal;
