// The states of the search in the store: what its loops keep, what they add to it and what they read off it.
#![tactic(auto)]

pub mod adding;
pub mod best;
pub mod order;

// What was done with a state: it took the place of an equal one, or the equal one stayed, or it is a new one.
#[derive(Clone, Copy)]
pub enum Added {
    Replaced,
    Kept,
    Appended,
}

// The store has no place left for a state: it is too small for the states of the search.
#[derive(Clone, Copy)]
pub struct Full;
