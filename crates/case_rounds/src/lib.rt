// Calls 12 and 13: a round's directions decoded together, with steps as numbers and with step records. What is asked and lent here is
// asked and lent for a round's sheet too (`case_sheets`).
#![tactic(auto)]

ghost use Rattle.std.specs.Prelude.{◌≤◌, length};

use case_fill::{Garbage, NO_STEP};
use case_line::line::Line;
use case_records::rounding;
use case_records::rounding::{Lent, Round};
use case_reply::reply;
use case_show::Shown;
use meaning::{Refusal, Step};
use std::io;

// The round that the line goes on with: the book, the directions, their ends and the width.
pub fn round_of<'a>(
    line: &mut Line,
    book: &'a mut [i32],
    directions: &'a mut [u16],
    ends: &'a mut [usize],
) -> Round<'a> {
    Round {
        book: line.list(book),
        directions: line.list(directions),
        ends: line.list(ends),
        width: line.read(),
    }
}

// How many places of each list are to be lent.
#[derive(Clone, Copy)]
pub struct Wish {
    pub steps: usize,
    pub words: usize,
    pub store: usize,
    pub answers: usize,
}

impl Wish {
    // The wish that the line goes on with.
    pub fn read(line: &mut Line) -> Wish {
        Wish {
            steps: line.read(),
            words: line.read(),
            store: line.read(),
            answers: line.read(),
        }
    }
}

// The first n places of the list, or all where it has fewer.
fn first<T>(list: &mut [T], n: usize) -> &mut [T] {
    let m = n.min(list.len());
    &mut list[..m]
}

// The lists that are lent beside the steps.
#[derive(Drop)]
pub struct Lists {
    words: [u16; 16700],
    store: [i64; 33000],
    answers: [i64; 600],
}

impl Lists {
    // The lists, full of garbage.
    pub fn filled(fill: u16) -> Lists {
        let mut words = [0u16; 16700];
        let mut store = [0i64; 33000];
        let mut answers = [0i64; 600];
        case_fill::fill(&mut words, fill);
        case_fill::fill(&mut store, fill);
        case_fill::fill(&mut answers, fill);
        Lists {
            words,
            store,
            answers,
        }
    }

    // As many places of each list as are wished for and are there.
    pub fn lend(&mut self, wish: Wish) -> Lent<'_> {
        let Lists {
            words,
            store,
            answers,
        } = self;
        Lent {
            words: first(words, wish.words),
            store: first(store, wish.store),
            answers: first(answers, wish.answers),
        }
    }

    pub fn show(&self, rt: &impl Print, fill: u16) -> io::Result<()> {
        case_show::list(rt, " words", &self.words, fill)?;
        case_show::list(rt, " store", &self.store, fill)?;
        case_show::list(rt, " answers", &self.answers, fill)
    }
}

// What the steps of a round are lent as: plain numbers, or records.
trait Steps: Garbage + Into<Shown> {
    // The reply with the first `room` of the steps lent.
    fn decode_round(
        round: Round,
        steps: &mut [Self],
        room: usize,
        lent: Lent,
    ) -> Result<(), Refusal>
        requires { room ≤ length steps.old };
}

impl Steps for u16 {
    fn decode_round(
        round: Round,
        steps: &mut [u16],
        room: usize,
        lent: Lent,
    ) -> Result<(), Refusal> {
        let Lent {
            words,
            store,
            answers,
        } = lent;
        rounds::decode_round(
            round.book,
            round.directions,
            round.ends,
            round.width,
            &mut steps[..room],
            words,
            store,
            answers,
        )
    }
}

impl Steps for Step {
    fn decode_round(
        round: Round,
        steps: &mut [Step],
        room: usize,
        lent: Lent,
    ) -> Result<(), Refusal> {
        rounding::ask(round, steps, room, lent)
    }
}

// The round, in lists that are full of garbage.
fn decode<S: Steps>(rt: &impl Print, line: &mut Line, steps: &mut [S]) -> io::Result<()> {
    let mut book = [0i32; 140000];
    let mut directions = [0u16; 2600];
    let mut ends = [0usize; 70];
    let round = round_of(line, &mut book, &mut directions, &mut ends);
    let wish = Wish::read(line);
    let fill: u16 = line.read();
    let mut lists = Lists::filled(fill);
    case_fill::fill(steps, fill);
    let room = wish.steps.min(steps.len());
    let answer = S::decode_round(round, steps, room, lists.lend(wish));
    reply::checked(rt, answer)?;
    case_show::list(rt, " steps", steps, fill)?;
    lists.show(rt, fill)
}

// 12: the book, the directions, their ends, the width, and the wish.
pub fn with_numbers(rt: &impl Print, line: &mut Line) -> io::Result<()> {
    decode(rt, line, &mut [0u16; 6400])
}

// 13: the same with step records.
pub fn with_records(rt: &impl Print, line: &mut Line) -> io::Result<()> {
    decode(rt, line, &mut [NO_STEP; 1100])
}
