// The outline of an ARPA text: question 23, and where its sections begin. `lines` knows a single line, `counts` the count lines, `sections` what follows
// them.
#![tactic(auto)]

pub mod counts;
pub mod lines;
pub mod sections;
