// The model of an ARPA text that question 23 has passed. `walk` goes over its n-grams, `model` notes what they add to a book, `write` puts their lines into
// a list.
#![tactic(auto)]

pub mod model;
pub mod walk;
pub mod write;
