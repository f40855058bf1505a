// The round sheet (ticket 8), from a round's answers: put into a lent list of bytes from a place on, line by line, as crate `printing` puts its lines.
#![tactic(auto)]

ghost use Rattle.std.specs.Prelude.{◌≡◌, cond, map, ◌+◌, ◌*◌, ◌≤◌, ◌<◌, max, pos, length};
ghost use Rattle.laws.specs.Lists.{concat, numbers_from, sumℤ, Each};
ghost use Rattle.meaning.specs.State.{score_bound};
ghost use Rattle.meaning.specs.Sheet.{direction_line, direction_lines, count_of, largest, occurred, answer_line, total_line, printed, sheet_of};
ghost use Rattle.decimals.specs.Put.{Put};
ghost use Rattle.sheet.specs.Rows.{number_at, row_at, rows_in, Fits, count_line};

// Puts the N line of direction k, counted from 0.
fn put_direction(out: &mut [u8], at: usize, answers: &[i64], count: usize, k: usize) -> usize
    requires fits { Fits answers.now count }
    requires k_lt_count { (k < count) × (at + 23 ≤ length out.old) }
    ensures { Put (printed (direction_line (k + 1) (row_at answers.now k))) at result out.old out.new }
{
    let first = 9 * k;
    let number = (k + 1) as i64;
    let numbers = [
        number,
        answers[first],
        answers[first + 1],
        answers[first + 3],
    ];
    printing::put_line(out, at, b'N', &numbers)
}

// Puts the N lines.
fn put_directions(out: &mut [u8], answers: &[i64], count: usize) -> usize
    requires fits { Fits answers.now count }
    requires in_bounds { 2_048 ≤ length out.old }
    ensures { Put (concat (map printed (direction_lines 1 (rows_in answers.now count)))) 0 result out.old out.new }
{
    let mut next = 0;
    for k in 0..count {
        next = put_direction(out, next, answers, count, k);
    }
    next
}

// The answer of direction k.
fn answer_at(answers: &[i64], count: usize, k: usize) -> usize
    requires fits { Fits answers.now count }
    requires k_lt_count { k < count }
    ensures { result ≡ (row_at answers.now k).answer }
{
    answers[9 * k] as usize
}

// How many directions have that answer.
fn count_of(answers: &[i64], count: usize, answer: usize) -> usize
    requires { Fits answers.now count }
    ensures { result ≡ count_of (rows_in answers.now count) answer }
{
    (0..count)
        .filter(|k| answer_at(answers, count, *k) == answer)
        .count()
}

// The largest answer.
fn largest_of(answers: &[i64], count: usize) -> usize
    requires { Fits answers.now count }
    ensures { result ≡ largest (rows_in answers.now count) }
{
    (0..count)
        .map(|k| answer_at(answers, count, k))
        .max()
        .unwrap_or(0)
}

// Puts the E line of an answer that occurred.
fn put_answer(out: &mut [u8], at: usize, answers: &[i64], count: usize, answer: usize) -> usize
    requires fits { Fits answers.now count }
    requires answer_bound { (answer ≤ 34) × (at + 8 ≤ length out.old) }
    ensures { Put (count_line (rows_in answers.now count) answer) at result out.old out.new }
{
    let found = count_of(answers, count, answer);
    if found == 0 {
        return at;
    }
    let numbers = [answer as i64, found as i64];
    printing::put_line(out, at, b'E', &numbers)
}

// Puts the E lines, rising.
fn put_answers(out: &mut [u8], at: usize, answers: &[i64], count: usize) -> usize
    requires fits { Fits answers.now count }
    requires at_in_bounds { at + 280 ≤ length out.old }
    ensures { Put (concat (map printed (map (answer_line (rows_in answers.now count)) (occurred (rows_in answers.now count))))) at result out.old out.new }
{
    let most = largest_of(answers, count);
    let mut next = at;
    for answer in 0..=most {
        next = put_answer(out, next, answers, count, answer);
    }
    next
}

// The sum of the directions' numbers at a place among the nine.
fn sum_of(answers: &[i64], count: usize, place: usize) -> i64
    requires fits { Fits answers.now count }
    requires place_bound { place < 9 }
    requires each { Each score_bound (map (number_at answers.now place) (numbers_from 0 count)) }
    ensures { result ≡ sumℤ (map (number_at answers.now place) (numbers_from 0 count)) }
{
    let mut sum = 0;
    for k in 0..count {
        sum += answers[9 * k + place];
    }
    sum
}

// Puts the Z line.
fn put_total(out: &mut [u8], at: usize, answers: &[i64], count: usize) -> usize
    requires fits { Fits answers.now count }
    requires at_in_bounds { at + 26 ≤ length out.old }
    ensures { Put (printed (total_line (rows_in answers.now count))) at result out.old out.new }
{
    let words = sum_of(answers, count, 3);
    let score = sum_of(answers, count, 1);
    let numbers = [count as i64, words, score];
    printing::put_line(out, at, b'Z', &numbers)
}

// Puts the sheet of the first `count` answers at the beginning of the list, and says how many bytes it is.
pub fn put_sheet(out: &mut [u8], answers: &[i64], count: usize) -> usize
    requires fits { Fits answers.now count }
    requires in_bounds { 2_048 ≤ length out.old }
    ensures { Put (sheet_of (rows_in answers.now count)) 0 result out.old out.new }
{
    let answered = put_directions(out, answers, count);
    let counted = put_answers(out, answered, answers, count);
    put_total(out, counted, answers, count)
}
