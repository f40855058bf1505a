// The steps that led to a state, by the parents' places.
ghost use Rattle.std.specs.Prelude.{◌≡◌, List, ℕ, ◌<◌, ◌≤◌, length, get_or};
ghost use Rattle.meaning.specs.State.{Hyp};
ghost use Rattle.ways.specs.Back.{nobody, Chains, Leads, Way};

use store::places;

// How many steps lead to the place k.
fn depth(store: &[i64], k: usize) -> usize
    requires { Leads store.now k 32 }
    ensures { (l : List Hyp) → Chains store.now l → k < length l → result ≡ length (get_or l k nobody).steps }
{
    let mut at = k;
    let mut d = 0;
    // No range: parents are followed back to the first place.
    while at > 0 {
        at = places::place_at(store, at).parent;
        d += 1;
    }
    d
}

// Writes the numbers of the steps that led to the place k, the first step's first, and answers how many there are.
pub fn path(store: &[i64], k: usize, out: &mut [usize]) -> usize
    requires leads { Leads store.now k 32 }
    requires in_bounds { 32 ≤ length out.old }
    ensures { (l : List Hyp) → Chains store.now l → k < length l → Way (get_or l k nobody).steps out.new result }
{
    let d = depth(store, k);
    let mut at = k;
    for left in (0..d).rev() {
        let x = places::place_at(store, at);
        out[left] = x.step;
        at = x.parent;
    }
    d
}
