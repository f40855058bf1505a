// The decoder's store: a lent `&mut [i64]`, eight numbers to a place, in the order in which the states are entered.
// With n places, the heads of the n buckets stand first, at 0 to n - 1, close together since each look-up begins at one; then the
// places, seven numbers to each, place k from n + 7 * k on:
//   number 0: word1 * 65,536 + word2     1: covered     2: r * 64 + size     3: the link of this place's state     4: score
//   5: the parent's place     6: the number of its step
// What is left behind the last place, less than eight numbers, is zero. A head or a link is 1 + a place, or 0 for none.
#![tactic(auto)]

use meaning::State;

pub mod index;
pub mod numbers;
pub mod places;

// What a place holds: a state, how many words it covers, the place of the state that was extended and the number of the step that extended it.
#[derive(Clone, Copy)]
pub struct Place {
    pub state: State,
    pub size: usize,
    pub parent: usize,
    pub step: usize,
}
