// The search on plain numbers: the states of the store are extended set by set, and the best of the last set is traced back.
#![tactic(auto)]

pub mod decode;
