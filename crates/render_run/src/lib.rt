// The rendering program's input and output: `book.txt` and standard input in, what `rendering` gives out.
#![tactic(auto)]

use std::io;
use std::rt::Files;

// Of each input one byte more is read than the program takes, which is enough to see that there are too many. An error is that the write failed.
pub fn run(rt: &(impl Files + Input + Print)) -> io::Result<()> {
    let mut book_text = [0u8; 8193];
    let mut direction_text = [0u8; 513];
    let mut out = [0u8; 4096];
    let b = book_file::read_book(rt, &mut book_text);
    let d = book_file::read_input(rt, &mut direction_text);
    let n = rendering::render(&book_text[..b], &direction_text[..d], &mut out);
    rt.write_all(&out[..n])
}
