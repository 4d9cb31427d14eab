// The meaning of contracts as a program: works out all days anew, from the bytes of the mornings taken.
#![tactic(auto)]

mod adding;
mod choices;
pub mod days;
mod dues;
mod figure;
mod first;
mod flow;
pub mod listing;
mod order;
mod parts;
pub mod settle;
