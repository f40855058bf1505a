// A loaded book: questions 2 to 6, 21 and 20, the index of its n-grams, and the target words of its entries.
#![tactic(auto)]

pub mod check;
pub mod load;
