// Lists of unsigned 16-bit numbers: one of them as a number to reckon with, and a number below 2 ^ 32 as two of them side by side, its halves:
// the rest below 65,536, and how many times 65,536. A signed number of 32 bits stands there as a natural one: 2 ^ 31 is added.
#![tactic(auto)]

ghost use Rattle.std.specs.Prelude.{◌≡◌, ◌+◌, ◌^◌, ◌<◌, length, get_or};
ghost use Rattle.laws.specs.Lists.{set_from};
ghost use Rattle.halves.specs.Halves.{half_span, halves_of, whole_at, shifted, signed_at};

const HALF_SPAN: usize = 65_536;

const SIGN_SHIFT: i64 = 2_147_483_648;

// Number k of the list.
pub fn number_at(list: &[u16], k: usize) -> usize
    requires { k < length list.now }
    ensures { (result ≡ get_or list.now k 0) × (result < half_span) }
{
    usize::from(list[k])
}

// The number whose halves stand at `at` and behind it.
#[tactic(auto, unfolding(crate::specs::Halves::whole_at))]
pub fn whole_at(list: &[u16], at: usize) -> usize
    requires { at + 1 < length list.now }
    ensures { (result ≡ whole_at list.now at) × (result < 2 ^ 32) }
{
    number_at(list, at) + HALF_SPAN * number_at(list, at + 1)
}

// Puts the halves of n at `at` and behind it.
pub fn put_whole(list: &mut [u16], at: usize, n: usize)
    requires { (at + 1 < length list.old) × (n < 2 ^ 32) }
    ensures { list.new ≡ set_from list.old at (halves_of n) }
{
    list[at] = (n % HALF_SPAN) as u16;
    list[at + 1] = (n / HALF_SPAN) as u16;
}

// A signed number as the natural one that stands for it.
fn shifted(x: i32) -> usize
    ensures { (result ≡ shifted x) × (result < 2 ^ 32) }
{
    (i64::from(x) + SIGN_SHIFT) as usize
}

// The signed number whose halves stand at `at` and behind it.
#[tactic(auto, unfolding(crate::specs::Halves::signed_at))]
pub fn signed_at(list: &[u16], at: usize) -> i64
    requires { at + 1 < length list.now }
    ensures { result ≡ signed_at list.now at }
{
    whole_at(list, at) as i64 - SIGN_SHIFT
}

// Puts the halves of x at `at` and behind it.
pub fn put_signed(list: &mut [u16], at: usize, x: i32)
    requires { at + 1 < length list.old }
    ensures { list.new ≡ set_from list.old at (halves_of (shifted x)) }
{
    put_whole(list, at, shifted(x));
}
