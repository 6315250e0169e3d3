// A board of 48 points over a book of datapoint types.
#![tactic(auto)]

pub mod board;
pub mod fault;
mod lines;
mod load;
mod table;
