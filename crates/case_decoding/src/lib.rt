// Calls 5, 6 and 8: scoring and decoding with step records, and the rendering.
#![tactic(auto)]

use case_fill::NO_STEP;
use case_line::line::Line;
use case_records::decoding;
use case_reply::{reply, say};
use meaning::{Answer, Refusal, Step};
use std::io;

// 5: the book, the direction and the steps.
pub fn score(rt: &impl Print, line: &mut Line) -> io::Result<()> {
    let mut book = [0i32; 140000];
    let mut direction = [0u16; 128];
    let mut steps = [NO_STEP; 1100];
    let book = line.list(&mut book);
    let direction = line.list(&mut direction);
    reply::scored(rt, phrase::score(book, direction, line.steps(&mut steps)))
}

// What is asked of a decode beside the book and the direction: the width, how many places of
// each list are lent, and the number that the first place of each holds.
#[derive(Clone, Copy)]
struct Wish {
    width: i64,
    steps: usize,
    words: usize,
    store: usize,
    fill: u16,
}

impl Wish {
    // The wish that the line goes on with.
    fn read(line: &mut Line) -> Wish {
        Wish {
            width: line.read(),
            steps: line.read(),
            words: line.read(),
            store: line.read(),
            fill: line.read(),
        }
    }
}

// The reply, with as many places of each list lent as are wished for and are there.
fn ask(
    book: &[i32],
    direction: &[u16],
    wish: Wish,
    steps: &mut [Step],
    words: &mut [u16],
    store: &mut [i64],
) -> Result<Answer, Refusal> {
    let n = wish.steps.min(steps.len());
    let w = wish.words.min(words.len());
    let s = wish.store.min(store.len());
    decoding::ask(
        book,
        direction,
        wish.width,
        steps,
        n,
        &mut words[..w],
        &mut store[..s],
    )
}

// The decode, in lists that are full of garbage.
fn decode_with(rt: &impl Print, book: &[i32], direction: &[u16], wish: Wish) -> io::Result<()> {
    let fill = wish.fill;
    let mut steps = [NO_STEP; 1100];
    let mut words = [0u16; 2000];
    let mut store = [0i64; 33000];
    case_fill::fill(&mut steps, fill);
    case_fill::fill(&mut words, fill);
    case_fill::fill(&mut store, fill);
    let answer = ask(book, direction, wish, &mut steps, &mut words, &mut store);
    reply::decoded(rt, answer)?;
    case_show::list(rt, " steps", &steps, fill)?;
    case_show::list(rt, " words", &words, fill)?;
    case_show::list(rt, " store", &store, fill)
}

// 6: the book, the direction, and the wish.
pub fn decode(rt: &impl Print, line: &mut Line) -> io::Result<()> {
    let mut book = [0i32; 140000];
    let mut direction = [0u16; 128];
    let book = line.list(&mut book);
    let direction = line.list(&mut direction);
    decode_with(rt, book, direction, Wish::read(line))
}

// 8: the bytes of a book's text and of a direction's, and the number that the first place of what is printed holds.
pub fn render(rt: &impl Print, line: &mut Line) -> io::Result<()> {
    let mut book = [0u8; 8193];
    let mut direction = [0u8; 513];
    let mut out = [0u8; 4096];
    let book = line.list(&mut book);
    let direction = line.list(&mut direction);
    let fill: u16 = line.read();
    case_fill::fill(&mut out, fill);
    say::count(rt, rendering::render(book, direction, &mut out))?;
    case_show::list(rt, " out", &out, fill)
}
