// Steps as C lends them, three numbers each, and as the decoder has them.
ghost use Rattle.std.specs.Prelude.{◌≡◌, ◌*◌, ◌≤◌, length};
ghost use Rattle.meaning.specs.Reply.{written_over};
ghost use Rattle.records.specs.Plain.{Gathered, steps_of};
ghost use Rattle.lists.specs.Steps.{records_in, numbers_of};

use records::Plain;

// The first 33 of a caller's steps, or all where there are fewer.
pub fn gather(steps: &[u16]) -> Plain
    ensures { Gathered result (records_in steps.now) }
{
    let count = records::at_most_33(steps.len() / 3);
    let end = 3 * count;
    let mut numbers = [0; 99];
    numbers[..end].copy_from_slice(&steps[..end]);
    Plain { count, numbers }
}

// Writes the steps at the beginning of a caller's numbers; no number behind them changes.
pub fn put_all(steps: &mut [u16], plain: Plain)
    requires { (3 * plain.count ≤ length steps.old) × (plain.count ≤ 33) }
    ensures { steps.new ≡ written_over (numbers_of (steps_of plain)) steps.old }
{
    let end = 3 * plain.count;
    steps[..end].copy_from_slice(&plain.numbers[..end]);
}
