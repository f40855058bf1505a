// Cases as data: a line of standard input is a label, a bar, and the numbers of one call; the line printed for it is the label, what
// the call replied, and every number of every list that it was lent (`case_show`). A list is its length and its numbers (`case_line`).
//
//     1 TEXT BOOK places fill    read a book; the list printed is held to BOOK, which may be empty, at its beginning
//     2 TEXT places fill         read a direction
//     3 BOOK                     check a book
//     4 BOOK entry               an entry's target words
//     5 BOOK DIRECTION STEPS     score with records: a count, then first, last and entry of each step
//     6 BOOK DIRECTION width steps words store fill    decode with records
//     7 DIRECTION                check a direction
//     8 TEXT TEXT fill           what the rendering program prints
//     9 LIST used LINE fill      add an entry; the list printed is held to LIST
//     10 LIST used entry fill    remove an entry, in the same way
//     11 TEXT TEXT LIST used fill    import an ARPA text through a word list, in the same way
//     12 BOOK DIRECTIONS ENDS width steps words store answers fill    decode a round, steps as numbers
//     13 BOOK DIRECTIONS ENDS width steps words store answers fill    the same with records
//     14 BOOK DIRECTIONS ENDS width steps words store answers sheet fill    a round's sheet, steps as numbers
//     15 BOOK DIRECTIONS ENDS width steps words store answers sheet fill    the same with records
//     16 TEXT TEXT fill          what the program `round` prints
//
// `places`, `steps`, `words`, `store`, `answers` and `sheet` say how many places are lent, `fill` what the first place of each list holds
// (`case_fill`). To add cases, add lines to `stdin`, and write `stdout` by the second decoder's program `cases`.
#![tactic(auto)]

use case_line::input;
use case_line::line::Line;
use case_reply::say;
use std::io;

// The call of that number.
fn call(rt: &impl Print, line: &mut Line, number: u64) -> io::Result<()> {
    match number {
        1 => case_reading::read_book(rt, line),
        2 => case_reading::read_direction(rt, line),
        3 => case_reading::check_book(rt, line),
        4 => case_reading::target_words(rt, line),
        5 => case_decoding::score(rt, line),
        6 => case_decoding::decode(rt, line),
        7 => case_reading::check_direction(rt, line),
        8 => case_decoding::render(rt, line),
        9 => case_revising::add_entry(rt, line),
        10 => case_revising::remove_entry(rt, line),
        11 => case_importing::import_arpa(rt, line),
        12 => case_rounds::with_numbers(rt, line),
        13 => case_rounds::with_records(rt, line),
        14 => case_sheets::with_numbers(rt, line),
        15 => case_sheets::with_records(rt, line),
        16 => case_sheets::print_round(rt, line),
        _ => print!(rt; "no such call"),
    }
}

// One line: the label, the bar, the call's number, and what the call is asked.
fn case(rt: &impl Print, text: &[u8]) -> io::Result<()> {
    let Some(bar) = text.iter().position(|b| *b == b'|') else {
        return Ok(());
    };
    say::begin(rt, &text[..bar])?;
    let mut line = Line::new(&text[bar + 1..]);
    let number = line.number();
    call(rt, &mut line, number.size)?;
    print!(rt; "\n")
}

// The lines in turn. Nothing says that an input ends, so they are counted. A last one that is cut off is not run.
fn main(rt: HostRuntime) -> io::Result<()> {
    let mut text = [0u8; 200000];
    for _ in 0..1000000 {
        let Some(line) = input::take_line(&rt, &mut text) else {
            return Ok(());
        };
        case(&rt, line)?;
    }
    Ok(())
}
