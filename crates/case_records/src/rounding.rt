// A list of step records, lent to decode a round into.
ghost use Rattle.std.specs.Prelude.{◌≡◌, ◌≤◌, length, drop};

use meaning::{Refusal, Step};

// What is asked of a round: the book, the directions, their ends and the width.
#[derive(Clone, Copy)]
pub struct Round<'a> {
    pub book: &'a [i32],
    pub directions: &'a [u16],
    pub ends: &'a [usize],
    pub width: i64,
}

// The lists that are lent beside the steps.
#[derive(Drop)]
pub struct Lent<'a> {
    pub words: &'a mut [u16],
    pub store: &'a mut [i64],
    pub answers: &'a mut [i64],
}

// The reply with the first `room` of the steps lent; the others are as before.
pub fn ask(round: Round, steps: &mut [Step], room: usize, lent: Lent) -> Result<(), Refusal>
    requires { room ≤ length steps.old }
    ensures { drop room steps.new ≡ drop room steps.old }
{
    let Lent {
        words,
        store,
        answers,
    } = lent;
    phrase::decode_round(
        round.book,
        round.directions,
        round.ends,
        round.width,
        &mut steps[..room],
        words,
        store,
        answers,
    )
}

// The same for the round's sheet.
pub fn ask_sheet(
    round: Round,
    steps: &mut [Step],
    room: usize,
    lent: Lent,
    sheet: &mut [u8],
) -> Result<usize, Refusal>
    requires { room ≤ length steps.old }
    ensures { drop room steps.new ≡ drop room steps.old }
{
    let Lent {
        words,
        store,
        answers,
    } = lent;
    phrase::round_sheet(
        round.book,
        round.directions,
        round.ends,
        round.width,
        &mut steps[..room],
        words,
        store,
        answers,
        sheet,
    )
}
