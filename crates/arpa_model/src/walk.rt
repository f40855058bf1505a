// The n-grams of an ARPA text that question 23 has passed, one at a time.
ghost use Rattle.std.specs.Prelude.{◌≡◌, ◌≤◌, length};
ghost use Rattle.arpa_model.specs.Walk.{Walking, NextIs};

use ngram_lines::{Fields, Gram};
use spelling::WordList;
use tokens::scan;

// A walk over the n-grams: the text's top order, the place of the next line, and the order of the section that it stands in, 0 before the first.
#[derive(Clone, Copy)]
pub struct Cursor {
    pub top: usize,
    pub at: usize,
    pub order: usize,
}

// An n-gram that was met, and where the walk goes on.
#[derive(Clone, Copy)]
pub struct Met {
    pub gram: Gram,
    pub cursor: Cursor,
}

// The next n-gram from the cursor on, where there is one; its line, where it has one, is put at the row's front. A line of one field begins a section, or ends
// the last.
pub fn next_gram(text: &[u8], cursor: Cursor, words: &WordList, row: &mut [i32]) -> Option<Met>
    requires walking { Walking text.now cursor }
    requires in_bounds { 5 ≤ length row.old }
    ensures next_is { NextIs text.now words.now.list.now cursor row.new result }
    ensures row_len_unchanged { length row.new ≡ length row.old }
{
    let Cursor {
        top,
        mut at,
        mut order,
    } = cursor;
    let mut places = [0usize; 10];
    // No iterator: each turn also fills `places`, and goes on behind the line that it read.
    while let Some(line) = scan::read_line(text, at, &mut places) {
        at = line.next;
        if line.count != 1 {
            let fields = Fields {
                count: line.count,
                order,
            };
            let gram = ngram_lines::read_gram(text, &places, fields, words, row);
            let cursor = Cursor { top, at, order };
            return Some(Met { gram, cursor });
        }
        if order == top {
            return None;
        }
        order += 1;
    }
    None
}
