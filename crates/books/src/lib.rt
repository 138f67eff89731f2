// The kinds of book. They are two implementations of one trait, over the same places; a call that both answer
// alike is one call of `Places` or of a function over slices.
#![tactic(auto)]

pub mod pile;
mod places;
pub mod shelf;
