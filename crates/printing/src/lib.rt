// What the rendering program prints, a line at a time, put into a lent list of bytes from a place on, as crate `decimals` puts its
// numbers.
#![tactic(auto)]

ghost use Rattle.std.specs.Prelude.{◌≡◌, map, ◌+◌, ◌*◌, ◌≤◌, pos, length, take};
ghost use Rattle.laws.specs.Lists.{concat};
ghost use Rattle.meaning.specs.Questions.{number};
ghost use Rattle.meaning.specs.Reply.{counts_of};
ghost use Rattle.meaning.specs.Render.{printed_line, printed_step, printed_refusal, printed_answer};
ghost use Rattle.records.specs.Plain.{steps_of};
ghost use Rattle.lists.specs.Report.{Countable};
ghost use Rattle.decimals.specs.Put.{Put, field};
ghost use Rattle.printing.specs.Lines.{plain_of};

use meaning::{Answer, Refusal, Step};

// Puts each number of a list after a comma.
fn put_fields(out: &mut [u8], at: usize, numbers: &[i64]) -> usize
    requires { at + length (concat (map field numbers.now)) ≤ length out.old }
    ensures { Put (concat (map field numbers.now)) at result out.old out.new }
{
    let mut next = at;
    for number in numbers {
        next = decimals::put_field(out, next, *number);
    }
    next
}

// Puts a line: its letter, each number after a comma, and a newline. Every line of the output is one of these.
pub fn put_line(out: &mut [u8], at: usize, letter: u8, numbers: &[i64]) -> usize
    requires { at + length (printed_line letter numbers.now) ≤ length out.old }
    ensures { Put (printed_line letter numbers.now) at result out.old out.new }
{
    let first = decimals::put_byte(out, at, letter);
    let end = put_fields(out, first, numbers);
    decimals::put_byte(out, end, b'\n')
}

// Puts the line of a refusal.
pub fn put_refusal(out: &mut [u8], at: usize, refusal: Refusal) -> usize
    requires { at + length (printed_refusal (number refusal)) ≤ length out.old }
    ensures { Put (printed_refusal (number refusal)) at result out.old out.new }
{
    let numbers = [meaning::number_of(refusal) as i64];
    put_line(out, at, b'R', &numbers)
}

// Puts the line of a step.
fn put_step(out: &mut [u8], at: usize, step: Step) -> usize
    requires { at + length (printed_step step) ≤ length out.old }
    ensures { Put (printed_step step) at result out.old out.new }
{
    let numbers = [step.first, step.last, step.entry].map(i64::from);
    put_line(out, at, b'S', &numbers)
}

// Puts the line of an answer's numbers.
fn put_counts(out: &mut [u8], at: usize, a: Answer) -> usize
    requires countable { Countable a }
    requires a_in_bounds { at + length (printed_line 65 (counts_of a)) ≤ length out.old }
    ensures { Put (printed_line 65 (counts_of a)) at result out.old out.new }
{
    let numbers = lists::report::numbers_of(a);
    put_line(out, at, b'A', &numbers)
}

// Puts words into a row as the numbers of a line, from its beginning on.
fn widen(words: &[u16], row: &mut [i64])
    requires { length words.now ≤ length row.old }
    ensures { take (length words.now) row.new ≡ map pos words.now }
{
    for (i, word) in words.iter().enumerate() {
        row[i] = i64::from(*word);
    }
}

// Puts the line of the target words: an answer has at most 256.
fn put_words(out: &mut [u8], at: usize, words: &[u16]) -> usize
    requires words_len_bound { length words.now ≤ 256 }
    requires words_in_bounds { at + length (printed_line 87 (map pos words.now)) ≤ length out.old }
    ensures { Put (printed_line 87 (map pos words.now)) at result out.old out.new }
{
    let mut row = [0i64; 256];
    widen(words, &mut row);
    put_line(out, at, b'W', &row[..words.len()])
}

// Puts the lines of `count` steps, which stand in `plain` as three numbers each: first, last, entry.
fn put_steps(out: &mut [u8], at: usize, plain: &[u16], count: usize) -> usize
    requires count_in_bounds { 3 * count ≤ length plain.now }
    requires count_in_bounds_2 { at + length (concat (map printed_step (steps_of (plain_of plain.now count)))) ≤ length out.old }
    ensures { Put (concat (map printed_step (steps_of (plain_of plain.now count)))) at result out.old out.new }
{
    let mut next = at;
    for i in 0..count {
        let j = i * 3;
        let step = Step {
            first: plain[j],
            last: plain[j + 1],
            entry: plain[j + 2],
        };
        next = put_step(out, next, step);
    }
    next
}

// Puts a whole answer: the line of its numbers, a line for each of its steps, and the line of its target words.
pub fn put_answer(out: &mut [u8], at: usize, a: Answer, plain: &[u16], words: &[u16]) -> usize
    requires countable { Countable a }
    requires words_len_bound { length words.now ≤ 256 }
    requires steps_in_bounds { 3 * a.steps ≤ length plain.now }
    requires words_in_bounds { at + length (printed_answer a (steps_of (plain_of plain.now a.steps)) words.now) ≤ length out.old }
    ensures { Put (printed_answer a (steps_of (plain_of plain.now a.steps)) words.now) at result out.old out.new }
{
    let steps = put_counts(out, at, a);
    let line = put_steps(out, steps, plain, a.steps);
    put_words(out, line, words)
}
