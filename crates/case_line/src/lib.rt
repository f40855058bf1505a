// A case is a line of standard input. `input` takes the line, `line` reads its numbers and lists, and `number` says what a number is in
// each type.
#![tactic(auto)]

pub mod input;
pub mod line;
pub mod number;
