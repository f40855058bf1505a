// The input and output of the program `round`: `book.txt` and standard input in, what `round_program` gives out.
#![tactic(auto)]

use std::io;
use std::rt::Files;

// Of each input one byte more is read than the program takes, which is enough to see that there are too many. An error is that the write failed.
pub fn run(rt: &(impl Files + Input + Print)) -> io::Result<()> {
    let mut book_text = [0u8; 8193];
    let mut text = [0u8; 32769];
    let mut out = [0u8; 2048];
    let b = book_file::read_book(rt, &mut book_text);
    let t = book_file::read_input(rt, &mut text);
    let n = round_program::print_round(&book_text[..b], &text[..t], &mut out);
    rt.write_all(&out[..n])
}
