// The two sides of the market, how each ranks its orders, and slices of orders kept by rank. Bids and asks
// are two implementations of the same traits; what holds of both is proved for every ranking.
#![tactic(auto)]

pub mod asks;
pub mod bids;
pub mod ranking;
pub mod side;
pub mod slices;
