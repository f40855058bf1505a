// The lists that C lends: steps as three numbers each, and the report of a call.
#![tactic(auto)]

pub mod report;
pub mod steps;
