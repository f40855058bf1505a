// Calls 1 to 4 and 7: reading and checking. Each reads what it is asked from its line, fills what it is to lend, and prints what it
// was replied and what it lent.
#![tactic(auto)]

use case_line::line::Line;
use case_reply::{reply, say};
use loading::check;
use std::io;

// 1: the text's bytes, the numbers that are expected (none, or those that the reading is to write), how many places are lent, and the
// number that the first of them holds.
pub fn read_book(rt: &impl Print, line: &mut Line) -> io::Result<()> {
    let mut bytes = [0u8; 120000];
    let mut expected = [0i32; 41000];
    let mut list = [0i32; 41000];
    let bytes = line.list(&mut bytes);
    let expected = line.list(&mut expected);
    let m = line.at_most(list.len());
    let fill: u16 = line.read();
    case_fill::fill(&mut list, fill);
    reply::read(rt, reading::read_book(bytes, &mut list[..m]))?;
    case_show::list_against(rt, " book", &list, expected, fill)
}

// 2: the same of a direction, with no numbers expected.
pub fn read_direction(rt: &impl Print, line: &mut Line) -> io::Result<()> {
    let mut bytes = [0u8; 120000];
    let mut list = [0u16; 2000];
    let bytes = line.list(&mut bytes);
    let m = line.at_most(list.len());
    let fill: u16 = line.read();
    case_fill::fill(&mut list, fill);
    reply::read(rt, direction::read_direction(bytes, &mut list[..m]))?;
    case_show::list(rt, " words", &list, fill)
}

// 3: the book.
pub fn check_book(rt: &impl Print, line: &mut Line) -> io::Result<()> {
    let mut book = [0i32; 140000];
    reply::checked(rt, check::check_book(line.list(&mut book)))
}

// 4: the book and the entry.
pub fn target_words(rt: &impl Print, line: &mut Line) -> io::Result<()> {
    let mut book = [0i32; 140000];
    let book = line.list(&mut book);
    let part = check::target_words(book, line.read());
    say::count(rt, part.len())?;
    say::row(rt, part)
}

// 7: the direction, to be checked.
pub fn check_direction(rt: &impl Print, line: &mut Line) -> io::Result<()> {
    let mut direction = [0u16; 128];
    reply::checked(rt, direction::check_direction(line.list(&mut direction)))
}
