// The covered positions of a direction as a binary number: position 1 is its lowest digit.
#![tactic(auto)]

ghost use Rattle.std.specs.Prelude.{◌≡◌, ◌+◌, ◌-◌, ◌*◌, ◌^◌, ◌≤◌, ◌<◌, leb, get_or};
ghost use Rattle.positions.specs.Runs.{run_here, Unpacked, RunsFrom, mask_of};

// How many positions in a row are free, from each position on; place i stands for position i + 1.
#[derive(Clone, Copy)]
pub struct Runs {
    pub run: [u8; 33],
}

impl Runs {
    // Every position from first to last is free.
    pub fn is_free(&self, first: usize, last: usize) -> bool
        requires { (1 ≤ first) × ((first ≤ last) × (last ≤ 32)) }
        ensures { result ≡ leb (last + 1 - first) (get_or self.now.run (first - 1) 0) }
    {
        last + 1 - first <= usize::from(self.run[first - 1])
    }
}

// The digits of `covered`, lowest first, one to a place.
fn unpack(covered: u32, n: usize) -> [u8; 33]
    requires { n ≤ 32 }
    ensures { Unpacked result n covered n }
{
    let mut digits = [0u8; 33];
    let mut rest = covered;
    for digit in &mut digits[..n] {
        *digit = (rest % 2) as u8;
        rest /= 2;
    }
    digits
}

// The run that begins at a position, from its digit and the run behind it.
fn run_here(digit: u8, behind: u8) -> u8
    requires { behind < 255 }
    ensures { result ≡ run_here digit behind }
{
    if digit == 1 { 0 } else { behind + 1 }
}

// The runs of free positions of a direction of n words.
pub fn free_runs(covered: u32, n: usize) -> Runs
    requires { n ≤ 32 }
    ensures { RunsFrom result.run n covered 0 }
{
    let mut run = unpack(covered, n);
    run[n] = 0;
    for i in (0..n).rev() {
        run[i] = run_here(run[i], run[i + 1]);
    }
    Runs { run }
}

// The number with the positions first to last covered too, which are free in it.
pub fn covered_with(covered: u32, first: usize, last: usize) -> u32
    requires { (1 ≤ first) × ((first ≤ last) × ((last ≤ 32) × (covered + mask_of first last < 2 ^ 32))) }
    ensures { result ≡ covered + mask_of first last }
{
    let mask = (1u64 << last) - (1u64 << (first - 1));
    (u64::from(covered) + mask) as u32
}
