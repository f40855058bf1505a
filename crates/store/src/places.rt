// Places of the store: what each holds, all but its link.
ghost use Rattle.std.specs.Prelude.{◌≡◌, ◌+◌, ◌*◌, ◌<◌, ◌≤◌, length};
ghost use Rattle.store.specs.Store.{place_at, words_of, Put, Spare, Storable, is_same};

use crate::{Place, numbers};
use meaning::State;

// What the place k holds.
pub fn place_at(store: &[i64], k: usize) -> Place
    requires { 8 * k + 8 ≤ length store.now }
    ensures { result ≡ place_at store.now k }
{
    let o = store.len() / 8 + 7 * k;
    let words = numbers::nat_at(store, o);
    let covered = numbers::nat_at(store, o + 1);
    let rest = numbers::nat_at(store, o + 2);
    let score = store[o + 4];
    let parent = numbers::nat_at(store, o + 5);
    let step = numbers::nat_at(store, o + 6);
    Place {
        state: State {
            word1: (words / 65536 % 65536) as u16,
            word2: (words % 65536) as u16,
            covered: (covered % 4294967296) as u32,
            r: (rest / 64 % 65536) as u16,
            score,
        },
        size: rest % 64,
        parent,
        step,
    }
}

// The last two words as one number.
pub fn words_of(x: State) -> usize
    ensures { (result ≡ words_of x) × (result < 4294967296) }
{
    usize::from(x.word1) * 65536 + usize::from(x.word2)
}

// The place k holds x from now on.
pub fn put_place(store: &mut [i64], k: usize, x: Place)
    requires k_in_bounds { 8 * k + 8 ≤ length store.old }
    requires storable { Storable x }
    ensures put { Put store.old store.new k x }
    ensures spare { Spare store.old store.new k }
{
    let o = store.len() / 8 + 7 * k;
    let s = x.state;
    store[o] = numbers::int(words_of(s));
    store[o + 1] = numbers::int(s.covered as usize);
    store[o + 2] = numbers::int(usize::from(s.r) * 64 + x.size);
    store[o + 4] = s.score;
    store[o + 5] = numbers::int(x.parent);
    store[o + 6] = numbers::int(x.step);
}

// The place k holds a state that is equal to x.
pub fn is_same_at(store: &[i64], k: usize, x: State) -> bool
    requires { 8 * k + 8 ≤ length store.now }
    ensures { result ≡ is_same (place_at store.now k).state x }
{
    is_same(place_at(store, k).state, x)
}

// All but the scores agree.
#[tactic(auto, unfolding(crate::specs::Store::is_same))]
pub fn is_same(y: State, x: State) -> bool
    ensures { result ≡ is_same y x }
{
    y.word1 == x.word1 && y.word2 == x.word2 && y.covered == x.covered && y.r == x.r
}
