// A step as one number: first, then last, then entry are its digits, so the order of the numbers is the order of the steps.
ghost use Rattle.std.specs.Prelude.{◌≡◌, ◌<◌};
ghost use Rattle.ways.specs.Codes.{code_of, step_of, codes};

use meaning::Step;

// The number of a step.
#[tactic(auto, unfolding(crate::specs::Codes::code_of))]
pub fn code(first: usize, last: usize, entry: usize) -> usize
    requires { (first < 65536) × (last < 64) × (entry < 65536) }
    ensures { result ≡ code_of (record { first = first; last = last; entry = entry }) }
{
    first * 4194304 + last * 65536 + entry
}

// The step of a number.
#[tactic(auto, unfolding(crate::specs::Codes::step_of))]
pub fn step(number: usize) -> Step
    requires { number < codes }
    ensures { result ≡ step_of number }
{
    Step {
        first: (number / 4194304) as u16,
        last: (number / 65536 % 64) as u16,
        entry: (number % 65536) as u16,
    }
}
