// The steps of a round as plain numbers, and how they come to stand in a caller's records.
ghost use Rattle.std.specs.Prelude.{◌≡◌, ◌<◌, ◌≤◌, length};
ghost use Rattle.records.specs.Rows.{step_over, row_in, rows_of, put_over};

use meaning::Step;

// Up to 2,048 steps as plain numbers, three to a step: 64 directions of 32. A step with first position 0 is none.
#[derive(Clone, Copy)]
pub struct Rows {
    pub count: usize,
    pub numbers: [u16; 6144],
}

// Step i, counted from 0; where it is none, the one that stands in its place.
pub fn step_or(rows: &Rows, i: usize, old: Step) -> Step
    requires { i < 2048 }
    ensures { result ≡ step_over (row_in rows.now.numbers i) old }
{
    let j = i * 3;
    if rows.numbers[j] == 0 {
        return old;
    }
    Step {
        first: rows.numbers[j],
        last: rows.numbers[j + 1],
        entry: rows.numbers[j + 2],
    }
}

// Writes the steps in their places among a caller's records. Where one is none, and behind them all, no record changes.
pub fn put_over(steps: &mut [Step], rows: Rows)
    requires { (rows.count ≤ length steps.old) × (rows.count ≤ 2048) }
    ensures { steps.new ≡ put_over (rows_of rows) steps.old }
{
    for k in 0..rows.count {
        steps[k] = step_or(&rows, k, steps[k]);
    }
}
