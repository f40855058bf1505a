// Calls 14, 15 and 16: a round's sheet, with steps as numbers and with step records, and the program `round`.
#![tactic(auto)]

ghost use Rattle.std.specs.Prelude.{◌≤◌, length};

use case_fill::{Garbage, NO_STEP};
use case_line::line::Line;
use case_records::rounding;
use case_records::rounding::{Lent, Round};
use case_reply::{reply, say};
use case_rounds::{Lists, Wish};
use case_show::Shown;
use meaning::{Refusal, Step};
use std::io;

// What the steps of a round are lent as: plain numbers, or records.
trait Steps: Garbage + Into<Shown> {
    // The reply with the first `room` of the steps lent.
    fn round_sheet(
        round: Round,
        steps: &mut [Self],
        room: usize,
        lent: Lent,
        sheet: &mut [u8],
    ) -> Result<usize, Refusal>
        requires { room ≤ length steps.old };
}

impl Steps for u16 {
    fn round_sheet(
        round: Round,
        steps: &mut [u16],
        room: usize,
        lent: Lent,
        sheet: &mut [u8],
    ) -> Result<usize, Refusal> {
        let Lent {
            words,
            store,
            answers,
        } = lent;
        round_sheet::round_sheet(
            round.book,
            round.directions,
            round.ends,
            round.width,
            &mut steps[..room],
            words,
            store,
            answers,
            sheet,
        )
    }
}

impl Steps for Step {
    fn round_sheet(
        round: Round,
        steps: &mut [Step],
        room: usize,
        lent: Lent,
        sheet: &mut [u8],
    ) -> Result<usize, Refusal> {
        rounding::ask_sheet(round, steps, room, lent, sheet)
    }
}

// The sheet, in lists that are full of garbage.
fn sheet_of<S: Steps>(rt: &impl Print, line: &mut Line, steps: &mut [S]) -> io::Result<()> {
    let mut book = [0i32; 140000];
    let mut directions = [0u16; 2600];
    let mut ends = [0usize; 70];
    let mut sheet = [0u8; 2100];
    let round = case_rounds::round_of(line, &mut book, &mut directions, &mut ends);
    let wish = Wish::read(line);
    let places = line.at_most(sheet.len());
    let fill: u16 = line.read();
    let mut lists = Lists::filled(fill);
    case_fill::fill(steps, fill);
    case_fill::fill(&mut sheet, fill);
    let room = wish.steps.min(steps.len());
    let answer = S::round_sheet(round, steps, room, lists.lend(wish), &mut sheet[..places]);
    reply::read(rt, answer)?;
    case_show::list(rt, " steps", steps, fill)?;
    lists.show(rt, fill)?;
    case_show::list(rt, " sheet", &sheet, fill)
}

// 14: the book, the directions, their ends, the width, the wish, and how many bytes of a sheet are lent.
pub fn with_numbers(rt: &impl Print, line: &mut Line) -> io::Result<()> {
    sheet_of(rt, line, &mut [0u16; 6400])
}

// 15: the same with step records.
pub fn with_records(rt: &impl Print, line: &mut Line) -> io::Result<()> {
    sheet_of(rt, line, &mut [NO_STEP; 1100])
}

// 16: the bytes of a book's text and of standard input, and the number that the first place of what is printed holds.
pub fn print_round(rt: &impl Print, line: &mut Line) -> io::Result<()> {
    let mut book = [0u8; 8193];
    let mut input = [0u8; 32769];
    let mut out = [0u8; 2048];
    let book = line.list(&mut book);
    let input = line.list(&mut input);
    let fill: u16 = line.read();
    case_fill::fill(&mut out, fill);
    say::count(rt, round_program::print_round(book, input, &mut out))?;
    case_show::list(rt, " out", &out, fill)
}
