// Clearing the store.
#![tactic(auto)]

ghost use Rattle.std.specs.Prelude.{◌≡◌, pos, length, replicate, ◌+◌, ◌*◌, ◌≤◌};
ghost use Rattle.store.specs.Store.{Indexed, Zeroed};
ghost use Rattle.clearing.specs.Swept.{Swept};

use store::index;

// Every number of the store is zero, also those past the last place.
pub fn clear(store: &mut [i64])
    ensures { store.new ≡ replicate (length store.old) (pos 0) }
{
    store.fill(0);
}

// The same, where it is not known already (`swept`): a store that is known to be all zero is not gone through again.
pub fn sweep(store: &mut [i64], swept: bool)
    requires { Swept swept store.old }
    ensures { store.new ≡ replicate (length store.old) (pos 0) }
{
    if !swept {
        clear(store);
    }
}

// The place k is zero, and so is the head h.
fn clear_place(store: &mut [i64], k: usize, h: usize)
    requires { (8 * k + 8 ≤ length store.old) × (8 * h + 8 ≤ length store.old) }
    ensures { Zeroed store.old store.new k h }
{
    let o = store.len() / 8 + 7 * k;
    store[o..o + 7].fill(0);
    store[h] = 0;
}

// Every number of the store is zero, where it holds count states and nothing else: only what they used is written.
fn clear_places(store: &mut [i64], count: usize)
    requires { Indexed store.old count }
    ensures { store.new ≡ replicate (length store.old) (pos 0) }
{
    for k in 0..count {
        let h = index::bucket_at(store, k);
        clear_place(store, k, h);
    }
}

// Every number of the store is zero, where it holds count states and nothing else: place by place where they are few, so that a large
// store with few states is cleared in no time, and else from one end to the other.
pub fn clear_used(store: &mut [i64], count: usize)
    requires { Indexed store.old count }
    ensures { store.new ≡ replicate (length store.old) (pos 0) }
{
    if count < store.len() / 64 {
        clear_places(store, count);
    } else {
        clear(store);
    }
}
