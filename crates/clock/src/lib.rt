// The time of day and the date.
#![tactic(auto)]

pub mod calendar;
pub mod date;
pub mod facts;
pub mod time;
