// The calls with step records, asked with the first of a list of them on loan.
#![tactic(auto)]

pub mod decoding;
pub mod rounding;
