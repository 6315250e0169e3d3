// Types of one octet.
#![tactic(auto)]

pub mod control;
pub mod facts;
pub mod range;
pub mod scene;
pub mod step;
