// A lent list of step records, and the same steps as plain numbers. A list of structs is read and written only here: whoever
// decodes or scores works on a `Plain`, by value, and a round on `rows::Rows`.
#![tactic(auto)]

ghost use Rattle.std.specs.Prelude.{◌≡◌, ◌<◌, ◌≤◌, min, length};
ghost use Rattle.meaning.specs.Reply.{written_over};
ghost use Rattle.records.specs.Plain.{no_steps, step_in, steps_of, Added, Gathered};

use meaning::Step;

pub mod rows;

// Up to 33 steps as plain numbers, three to a step: first, last, entry.
#[derive(Clone, Copy)]
pub struct Plain {
    pub count: usize,
    pub numbers: [u16; 99],
}

// No steps.
pub fn empty() -> Plain
    ensures { result ≡ no_steps }
{
    Plain {
        count: 0,
        numbers: [0u16; 99],
    }
}

// One step more. Where 33 stand already there is no place for it, and nothing changes.
pub fn with_step(p: Plain, step: Step) -> Plain
    ensures { Added p step result }
{
    let at = p.count;
    if 33 <= at {
        return p;
    }
    let mut numbers = p.numbers;
    let j = at * 3;
    numbers[j] = step.first;
    numbers[j + 1] = step.last;
    numbers[j + 2] = step.entry;
    Plain {
        count: at + 1,
        numbers,
    }
}

// Step i, counted from 0.
pub fn step_in(p: Plain, i: usize) -> Step
    requires { i < 33 }
    ensures { result ≡ step_in p i }
{
    let numbers = p.numbers;
    let j = i * 3;
    Step {
        first: numbers[j],
        last: numbers[j + 1],
        entry: numbers[j + 2],
    }
}

// How many of `count` records are gathered.
pub fn at_most_33(count: usize) -> usize
    ensures { result ≡ min count 33 }
{
    count.min(33)
}

// The first 33 of a caller's records, or all where there are fewer. Reads no record past the 33rd.
pub fn gather(steps: &[Step]) -> Plain
    ensures { Gathered result steps.now }
{
    let mut plain = empty();
    for step in &steps[..at_most_33(steps.len())] {
        plain = with_step(plain, *step);
    }
    plain
}

// Writes the steps at the beginning of a caller's records; no record beyond them changes.
pub fn put_all(steps: &mut [Step], plain: Plain)
    requires { (plain.count ≤ length steps.old) × (plain.count ≤ 33) }
    ensures { steps.new ≡ written_over (steps_of plain) steps.old }
{
    for k in 0..plain.count {
        steps[k] = step_in(plain, k);
    }
}
