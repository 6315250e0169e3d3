// What a point of a board keeps, takes and tells.
#![tactic(auto)]

pub mod mark;
pub mod placed;
pub mod take;
