// What the search reads off the store: the best score of a set, the beam's test, the best state.
ghost use Rattle.std.specs.Prelude.{◌≡◌, List, ℕ, ◌+◌, ◌*◌, ◌<◌, ◌≤◌, length};
ghost use Rattle.std.proofs.Math.Option.{none};
ghost use Rattle.laws.specs.Integers.{Within};
ghost use Rattle.search_theory.specs.Loops.{pick};
ghost use Rattle.meaning.specs.State.{Hyp, words_covered, is_better, score_bound};
ghost use Rattle.meaning.specs.Search.{best_score};
ghost use Rattle.states.specs.Shows.{Lists};
ghost use Rattle.states.specs.Ghost.{in_width};
ghost use Rattle.ways.specs.Ties.{Walked};
ghost use Rattle.states.specs.Order.{Walks};
ghost use Rattle.states.specs.Answer.{sized, raised, Below, no_close, picked, with_place};

use crate::order;
use meaning::State;
use store::{Place, places};

// The best score so far, if there is one, with that of x, if x covers i words.
fn raise(top: Option<i64>, x: Place, i: usize) -> Option<i64>
    ensures { result ≡ raised i top x.size x.state.score }
{
    if x.size != i {
        return top;
    }
    match top {
        Some(best) => Some(best.max(x.state.score)),
        None => Some(x.state.score),
    }
}

// The best score of the states that cover i words, of the first count; 0 where there is none.
pub fn top_score(store: &[i64], count: usize, i: usize) -> i64
    requires { 8 * count ≤ length store.now }
    ensures { (n : ℕ) (l : List Hyp) → Lists n store.now count l → result ≡ best_score (sized i l) }
{
    let mut top = None;
    for k in 0..count {
        top = raise(top, places::place_at(store, k), i);
    }
    top.unwrap_or(0)
}

// The beam's test: the state's score is within the width of the best. No difference is too large for the type: top - width could be.
pub fn is_within(top: i64, x: State, width: i64) -> bool
    requires { Within score_bound top × Within score_bound x.score }
    ensures { result ≡ in_width width top x.score }
{
    width == -1 || top - x.score <= width
}

// The better of a place and the place k, if that covers n words. (`count` is for the contract.)
fn better_of(store: &[i64], count: usize, best: Option<usize>, k: usize, n: usize) -> Option<usize>
    requires walks { Walks store.now count × (k < count) }
    requires below { Below n store.now k best }
    ensures below_2 { Below n store.now (k + 1) result }
    ensures result_value { (l : List Hyp) → Walked store.now l → Lists n store.now count l → picked l result ≡ with_place n store.now l best k }
{
    let x = places::place_at(store, k);
    if x.size != n {
        return best;
    }
    match best {
        None => Some(k),
        Some(j) => {
            let y = places::place_at(store, j);
            if order::is_better(store, x, y.state, j) {
                Some(k)
            } else {
                Some(j)
            }
        }
    }
}

// The place of the best state that covers n words, of the first count: "a highest score in set n", and of those the one whose steps come first.
pub fn pick_best(store: &[i64], count: usize, n: usize) -> Option<usize>
    requires { Walks store.now count }
    ensures below { Below n store.now count result }
    ensures l_value { (l : List Hyp) → Walked store.now l → Lists n store.now count l → pick words_covered n no_close is_better none l ≡ picked l result }
{
    let mut best = None;
    for k in 0..count {
        best = better_of(store, count, best, k, n);
    }
    best
}
