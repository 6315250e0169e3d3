// The lines of a list.
#![tactic(auto)]

pub mod draft;
mod keys;
pub mod line;
mod numerals;
pub mod page;
pub mod read;
pub mod reading;
pub mod sheet;
