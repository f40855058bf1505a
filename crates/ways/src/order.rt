// Which of two ways comes first: "compare step by step by first, then last, then entry". Only states with equal scores are compared by it.
ghost use Rattle.std.specs.Prelude.{◌≡◌, List, [], ◌∷◌, ◌++◌, get_or};
ghost use Rattle.meaning.specs.Derivation.{comes_before};
ghost use Rattle.meaning.specs.State.{Hyp};
ghost use Rattle.ways.specs.Back.{nobody};
ghost use Rattle.ways.specs.Codes.{step_of};
ghost use Rattle.ways.specs.Ties.{Beside, Compared};

use store::places;

// The steps of the place j with the step of the number o behind them come before the steps of the place k, whose state covers as many words. Both ways are
// followed back, from the place that covers more words each time, to the last place that they share: the steps after it are the first that differ.
pub fn comes_first(store: &[i64], j: usize, o: usize, k: usize) -> bool
    requires { Compared store.now j o k }
    ensures { (l : List Hyp) → Beside store.now l j o k → result ≡ comes_before ((get_or l j nobody).steps ++ (step_of o ∷ [])) (get_or l k nobody).steps }
{
    let z = places::place_at(store, k);
    let mut a = j;
    let mut s = o;
    let mut b = z.parent;
    let mut t = z.step;
    // No range: two chains of parents are followed back to where they meet.
    while a != b {
        let x = places::place_at(store, a);
        let y = places::place_at(store, b);
        if x.size < y.size {
            b = y.parent;
            t = y.step;
        } else {
            a = x.parent;
            s = x.step;
        }
    }
    s < t
}
