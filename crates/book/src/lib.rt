// What every kind of book does, and what the kinds share.
#![tactic(auto)]

pub mod book;
pub mod criterion;
pub mod refusing;
pub mod slices;
