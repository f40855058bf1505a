// A text of lines and fields, as an ARPA text and a word list are.
#![tactic(auto)]

pub mod same;
pub mod scan;
