// What a round is made of (ticket 7): its questions behind the book's, what is told of each direction, and a direction on its own places.
#![tactic(auto)]

pub mod ask;
pub mod at;
pub mod tell;
