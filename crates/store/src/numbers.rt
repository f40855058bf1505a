// Natural numbers in a store of signed ones.
ghost use Rattle.std.specs.Prelude.{◌≡◌, ◌<◌, ◌^◌, pos, length, get_or};
ghost use Rattle.laws.specs.Integers.{nat_of};

// The number, or 0 where it is negative.
fn nat(x: i64) -> usize
    ensures { result ≡ nat_of x }
{
    x.max(0) as usize
}

// The number as the store holds it.
pub fn int(x: usize) -> i64
    requires { x < 2 ^ 63 }
    ensures { result ≡ pos x }
{
    x as i64
}

// The number at k, or 0 where it is negative: so reading asks nothing of what the store holds.
pub fn nat_at(store: &[i64], k: usize) -> usize
    requires { k < length store.now }
    ensures { result ≡ nat_of (get_or store.now k (pos 0)) }
{
    nat(store[k])
}
