// The index of the store: its states in chains, by bucket.
ghost use Rattle.std.specs.Prelude.{◌≡◌, ◌+◌, ◌*◌, ◌/◌, ◌<◌, ◌≤◌, length};
ghost use Rattle.store.specs.Store.{place_at, head_at, link_at, bucket_of, Relinked, Put, Storable, Indexed, Located};

use crate::{Place, numbers, places};
use meaning::State;

// The bucket of a state, of as many as there are slots, but of no more than a product with a number below 2 ^ 32 has room for. What tells the states apart is
// multiplied by odd factors, so that each digit counts in the high digits of the result, and the part of 2 ^ 32 that this makes is taken of the buckets: there is
// no division by a number that is known only at run time.
fn bucket(slots: usize, x: State) -> usize
    requires { 0 < slots }
    ensures { (result ≡ bucket_of slots x) × (result < slots) }
{
    let words = places::words_of(x) as u32;
    let mixed = words
        .wrapping_mul(2654435769)
        .wrapping_add(x.covered.wrapping_mul(2246822519))
        .wrapping_add(u32::from(x.r).wrapping_mul(3266489917));
    mixed as usize * slots.min(2147483648) / 4294967296
}

// The bucket of the state at the place k.
pub fn bucket_at(store: &[i64], k: usize) -> usize
    requires { 8 * k + 8 ≤ length store.now }
    ensures { (result ≡ bucket_of (length store.now / 8) (place_at store.now k).state) × (8 * result + 8 ≤ length store.now) }
{
    bucket(store.len() / 8, places::place_at(store, k).state)
}

// The head of the bucket h.
#[tactic(auto, unfolding(crate::specs::Store::head_at))]
fn head_at(store: &[i64], h: usize) -> usize
    requires { 8 * h + 8 ≤ length store.now }
    ensures { result ≡ head_at store.now h }
{
    numbers::nat_at(store, h)
}

// The link of the state at the place k.
#[tactic(auto, unfolding(crate::specs::Store::link_at))]
fn link_at(store: &[i64], k: usize) -> usize
    requires { 8 * k + 8 ≤ length store.now }
    ensures { result ≡ link_at store.now k }
{
    let o = store.len() / 8 + 7 * k;
    numbers::nat_at(store, o + 3)
}

// The place below count that holds a state equal to x, if there is one. It looks at the states of x's bucket only.
pub fn find_equal(store: &[i64], count: usize, x: State) -> Option<usize>
    requires { Indexed store.now count }
    ensures { Located store.now count x result }
{
    let mut at = head_at(store, bucket(store.len() / 8, x));
    // No iterator: the chain goes from link to link, as they stand in the store.
    while let Some(k) = at.checked_sub(1) {
        if places::is_same_at(store, k, x) {
            return Some(k);
        }
        at = link_at(store, k);
    }
    None
}

// The place k is put in front of the bucket h.
fn link_place(store: &mut [i64], k: usize, h: usize)
    requires { (8 * k + 8 ≤ length store.old) × (8 * h + 8 ≤ length store.old) }
    ensures { Relinked store.old store.new k h }
{
    let o = store.len() / 8 + 7 * k;
    store[o + 3] = store[h];
    store[h] = numbers::int(k + 1);
}

// One state more, at the place count. No place below count may hold an equal one, or find_equal will find one of the two.
pub fn append_place(store: &mut [i64], count: usize, x: Place)
    requires indexed { Indexed store.old count }
    requires count_in_bounds { (8 * count + 8 ≤ length store.old) × Storable x }
    ensures put { Put store.old store.new count x }
    ensures indexed_2 { Indexed store.new (count + 1) }
{
    places::put_place(store, count, x);
    let h = bucket(store.len() / 8, x.state);
    link_place(store, count, h);
}
