// Two types one after the other.
#![tactic(auto)]

mod direction;
pub mod facts;
pub mod join;
