// A book of datapoint types, and one book made of two.
#![tactic(auto)]

pub mod book;
pub mod bound;
pub mod catalogue;
pub mod found;
pub mod number;
