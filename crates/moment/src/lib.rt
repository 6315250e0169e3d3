// A date and time.
#![tactic(auto)]

pub mod date_time;
pub mod facts;
mod flags;
mod moment;
mod parts;
