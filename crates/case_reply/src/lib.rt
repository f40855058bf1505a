// The line printed for a case: its label, a colon, what was answered, and the lists that were lent.
#![tactic(auto)]

pub mod reply;
pub mod say;
