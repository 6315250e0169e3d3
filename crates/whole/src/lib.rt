// Whole numbers of one, two and four octets, the high octet first.
#![tactic(auto)]

pub mod facts;
pub mod whole;
