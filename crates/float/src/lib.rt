// The float of two octets, the types of main number 9 (KNX Standard, Datapoint Types, 02.02.01).
#![tactic(auto)]

pub mod facts;
pub mod two_octets;
