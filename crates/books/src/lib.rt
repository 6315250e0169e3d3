// The general book and the heating book of datapoint types.
#![tactic(auto)]

pub mod facts;
pub mod general;
pub mod heating;
pub mod house;
pub mod standard;
