// What is left of one deal, kept in its part of the lent bytes: the contract's nodes, rows of what waits, and what stands above them.
#![tactic(auto)]

mod begin;
mod cells;
pub mod deal;
mod lay;
