// The order of the search: which of two states is the better.
ghost use Rattle.ways.specs.Ties.{Compared};
ghost use Rattle.states.specs.Order.{Tested};

use meaning::State;
use std::cmp::Ordering;
use store::Place;

// x is better than the state y of the place k: a higher score, or the same and steps that come first. Two ways back are compared only where the scores are equal.
pub fn is_better(store: &[i64], x: Place, y: State, k: usize) -> bool
    requires { Compared store.now x.parent x.step k }
    ensures { Tested store.now x y k result }
{
    match x.state.score.cmp(&y.score) {
        Ordering::Less => false,
        Ordering::Greater => true,
        Ordering::Equal => ways::order::comes_first(store, x.parent, x.step, k),
    }
}
