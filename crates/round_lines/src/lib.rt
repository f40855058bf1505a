// A text with a direction on each line, as the program `round` reads it: the lines, and the words of each.
#![tactic(auto)]

ghost use Rattle.std.specs.Prelude.{◌≡◌, true, ◌+◌, ◌≤◌, length};
ghost use Rattle.meaning.specs.Questions.{within};
ghost use Rattle.meaning.specs.Sheet.{direction_texts};
ghost use Rattle.round_lines.specs.Lines.{PlacedAt, LinesRead};

use meaning::Refusal;

// How many lines there are.
pub fn count_lines(text: &[u8]) -> usize
    ensures { result ≡ length (direction_texts text.now) }
{
    text.split_inclusive(|b| *b == b'\n').count()
}

// Reads a line's text into the 32 places from `at` on.
fn read_at(text: &[u8], directions: &mut [u16], at: usize) -> Result<usize, Refusal>
    requires { at + 32 ≤ length directions.old }
    ensures { PlacedAt result text.now at directions.old directions.new }
{
    direction::read_direction(text, &mut directions[at..at + 32])
}

// Reads each line in turn: its words stand behind those of the line before, and where they end is put in `ends`. Says how many lines there are, or which
// refusal the first has that is refused.
pub fn read_lines(text: &[u8], directions: &mut [u16], ends: &mut [usize]) -> Result<usize, Refusal>
    requires text_value { within 1 64 (length (direction_texts text.now)) ≡ true }
    requires in_bounds { 2_048 ≤ length directions.old }
    requires in_bounds_2 { 64 ≤ length ends.old }
    ensures { LinesRead result (direction_texts text.now) directions.new ends.new }
{
    let mut n = 0;
    let mut at = 0;
    for line in text.split_inclusive(|b| *b == b'\n') {
        at += read_at(line, directions, at)?;
        ends[n] = at;
        n += 1;
    }
    Ok(n)
}
