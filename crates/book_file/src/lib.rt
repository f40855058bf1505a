// What the programs read: the file `book.txt` and standard input.
#![tactic(auto)]

ghost use Rattle.std.specs.Prelude.{◌≡◌, ◌≤◌, length, take};

use std::fs;
use std::io::Read;
use std::rt::Files;

// Reads until the list is full, the bytes end or a read fails, and says how many bytes it put at the list's beginning.
fn read_full<R: Read>(from: &mut R, text: &mut [u8]) -> usize
    ensures { (result ≤ length text.new) × (result ≡ length (take result text.new)) }
{
    let mut done: usize = 0;
    // No range: a read gives as many bytes as it has.
    while done < text.len() {
        match from.read(&mut text[done..]) {
            Ok(0) | Err(_) => break,
            Ok(n) => done += n,
        }
    }
    done
}

// Reads the beginning of `book.txt`, and says how many bytes it read: none where the file can't be opened.
pub fn read_book(rt: &impl Files, text: &mut [u8]) -> usize
    ensures { (result ≤ length text.new) × (result ≡ length (take result text.new)) }
{
    match fs::open(rt, "book.txt") {
        Ok(mut file) => read_full(&mut file, text),
        Err(_) => 0,
    }
}

// Reads the beginning of standard input, and says how many bytes it read.
pub fn read_input(rt: &impl Input, text: &mut [u8]) -> usize
    ensures { (result ≤ length text.new) × (result ≡ length (take result text.new)) }
{
    let mut from = rt.reader();
    read_full(&mut from, text)
}
