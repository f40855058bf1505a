#![tactic(auto)]

pub mod entries;
pub mod grams;
pub mod loaded;
pub mod survey;
pub mod target;
