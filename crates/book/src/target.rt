// Where an entry, and its target words, stand in the loaded list.
ghost use Rattle.std.specs.Prelude.{◌≡◌, true};
ghost use Rattle.laws.specs.Lists.{all};
ghost use Rattle.meaning.specs.Book.{in_list, is_whole, loaded_lines, target_part_from};
ghost use Rattle.book.specs.Target.{EntryFound, IsPart};

use crate::loaded;
use crate::loaded::Lines;

// A part of a list: where it starts, and how many numbers it has.
#[derive(Clone, Copy)]
pub struct Part {
    pub start: usize,
    pub size: usize,
}

// Where the P line of an entry stands, by a walk that counts the P lines; none where there is no such entry.
pub fn find_entry(book: &[i32], entry: usize) -> Option<usize>
    requires { all (is_whole in_list) (loaded_lines book.now) ≡ true }
    ensures { EntryFound book.now entry result }
{
    let mut left = entry;
    for (at, _) in Lines::new(book) {
        if loaded::is_entry_at(book, at) {
            if left == 1 {
                return Some(at);
            }
            left = left.saturating_sub(1);
        }
    }
    None
}

// Where the target words of an entry stand; the empty part at the list's end where there is no such entry.
pub fn find_target(book: &[i32], entry: usize) -> Part
    requires { all (is_whole in_list) (loaded_lines book.now) ≡ true }
    ensures { IsPart book.now result (target_part_from entry 0 (loaded_lines book.now)) }
{
    match find_entry(book, entry) {
        Some(at) => Part {
            start: at + 3 + lines::natural_at(book, at + 1),
            size: lines::natural_at(book, at + 2),
        },
        None => Part {
            start: book.len(),
            size: 0,
        },
    }
}
