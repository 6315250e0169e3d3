// What a datapoint type is: its meaning, what every implementation proves of it, and the refusals of all calls.
#![tactic(auto)]

pub mod datapoint_type;
pub mod front;
pub mod refusal;
