// The type of fourteen characters.
#![tactic(auto)]

pub mod facts;
pub mod text;
