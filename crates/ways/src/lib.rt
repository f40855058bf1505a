// The way that led to a state: its steps, followed back by the parents' places; and which of two ways comes first.
#![tactic(auto)]

pub mod order;
pub mod paths;
pub mod steps;
