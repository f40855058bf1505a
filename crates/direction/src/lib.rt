// Directions: reading a direction's text (questions 8, 9, 10, 7) and checking a direction as numbers (9, 10).
#![tactic(auto)]

ghost use Rattle.std.specs.Prelude.{◌≡◌, true, map, ◌≤◌, pos, length};
ghost use Rattle.laws.specs.Integers.{nat_of};
ghost use Rattle.laws.specs.Lists.{all};
ghost use Rattle.meaning.specs.Questions.{within};
ghost use Rattle.meaning.specs.Direction.{is_direction_word, direction_refusal};
ghost use Rattle.meaning.specs.Reply.{reply_of, reply, written_over, read_direction, read_direction_list};

use meaning::Refusal;

// Question 9, of how many words there are.
fn is_count(n: usize) -> bool
    ensures { result ≡ within 1 32 n }
{
    (1..=32).contains(&n)
}

// Question 10, of a direction as numbers.
fn all_words(direction: &[u16]) -> bool
    ensures { result ≡ all is_direction_word (map pos direction.now) }
{
    direction
        .iter()
        .all(|word| lines::is_word(i32::from(*word)))
}

// Writes words at the beginning of a direction that has room for them.
fn write_words(row: &[i32], direction: &mut [u16])
    requires row_value { all is_direction_word row.now ≡ true }
    requires row_in_bounds { length row.now ≤ length direction.old }
    ensures { direction.new ≡ written_over (map nat_of row.now) direction.old }
{
    for (place, word) in row.iter().enumerate() {
        direction[place] = *word as u16;
    }
}

// Reads a direction's text into a lent list, and says how many words it wrote; a refusal changes nothing.
pub fn read_direction(text: &[u8], direction: &mut [u16]) -> Result<usize, Refusal>
    ensures result_value { reply_of result ≡ read_direction text.now (length direction.old) }
    ensures direction_after { direction.new ≡ read_direction_list text.now direction.old }
{
    if !text::is_direction_text(text) {
        return Err(Refusal::DirectionText);
    }
    let mut row = [0i32; 32];
    let n = text::read_direction_row(text, &mut row);
    if !is_count(n) {
        return Err(Refusal::WordCount);
    }
    if !lines::all_words(&row[..n]) {
        return Err(Refusal::WordRange);
    }
    if direction.len() < n {
        return Err(Refusal::ListTooShort);
    }
    write_words(&row[..n], direction);
    Ok(n)
}

// Checks a direction as numbers, as each call does that takes one.
pub fn check_direction(direction: &[u16]) -> Result<(), Refusal>
    ensures { reply_of result ≡ reply (direction_refusal direction.now) tt }
{
    if !is_count(direction.len()) {
        Err(Refusal::WordCount)
    } else if !all_words(direction) {
        Err(Refusal::WordRange)
    } else {
        Ok(())
    }
}
