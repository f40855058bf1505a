// The questions of a round: the book's, 26 and 12, and 7 of its sheet.
ghost use Rattle.std.specs.Prelude.{◌≡◌, ◌&&◌, ◌*◌, ◌≤◌, leb, ltb, length};
ghost use Rattle.meaning.specs.Questions.{within};
ghost use Rattle.book.specs.Entries.{index_size};
ghost use Rattle.round_parts.specs.Asked.{are_rising_to, behind_book, CheckedBy, OpenedFor};

use meaning::Refusal;
use opening::Counts;

// Above the end before, and not past a list of `most` words.
fn is_end(before: usize, end: usize, most: usize) -> bool
    ensures { result ≡ ltb before end && leb end most }
{
    before < end && end <= most
}

// All ends are so; 0 stands before the first.
fn are_rising(ends: &[usize], most: usize) -> bool
    ensures { result ≡ are_rising_to most 0 ends.now }
{
    let mut before = 0;
    for end in ends {
        if !is_end(before, *end, most) {
            return false;
        }
        before = *end;
    }
    true
}

// There are 1 to 64.
fn is_count(count: usize) -> bool
    ensures { result ≡ within 1 64 count }
{
    (1..=64).contains(&count)
}

// How many step places, words and answers are lent; and whether there are bytes enough for a sheet, if one is asked for.
#[derive(Clone, Copy)]
pub struct Room {
    pub steps: usize,
    pub words: usize,
    pub answers: usize,
    pub enough: bool,
}

// There are places for all directions.
fn has_room(count: usize, room: Room) -> bool
    requires { count ≤ 64 }
    ensures { result ≡ leb (32 * count) room.steps && leb (256 * count) room.words && leb (9 * count) room.answers }
{
    32 * count <= room.steps && 256 * count <= room.words && 9 * count <= room.answers
}

// 26 of ends that mark a list of `most` words, then 12, then 7 of a sheet.
fn ask(ends: &[usize], most: usize, room: Room) -> Result<(), Refusal>
    ensures { CheckedBy (behind_book most ends.now room) result }
{
    if !is_count(ends.len()) || !are_rising(ends, most) {
        return Err(Refusal::RoundEnds);
    }
    if !has_room(ends.len(), room) {
        return Err(Refusal::StepsOrWordsTooShort);
    }
    if !room.enough {
        return Err(Refusal::ListTooShort);
    }
    Ok(())
}

// All questions of a round: the book's, 26, 12 and 7. Where they pass, the book is open.
pub fn open_round(
    book: &[i32],
    index: &mut [u16],
    ends: &[usize],
    most: usize,
    room: Room,
) -> Result<Counts, Refusal>
    requires { index_size ≤ length index.old }
    ensures { OpenedFor book.now ends.now most room index.new result }
{
    let counts = opening::open_book(book, index)?;
    ask(ends, most, room)?;
    Ok(counts)
}
