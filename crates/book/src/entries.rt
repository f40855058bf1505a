// Where the entries of a loaded book stand, noted in the one list behind the n-grams' records.
ghost use Rattle.std.specs.Prelude.{◌≡◌, true, ◌+◌, ◌^◌, ◌≤◌, ◌<◌, length, drop};
ghost use Rattle.laws.specs.Bits.{one};
ghost use Rattle.meaning.specs.Book.{is_p, book_refusal};
ghost use Rattle.book.specs.Entries.{entry_halves, index_size, entry_place, with_place, Placed};

use crate::loaded;
use crate::loaded::Lines;

// How many entries there may be, where their places begin, two halves each, and how long the list is with them.
pub const ENTRIES_MOST: usize = lines::PHRASES_MOST;

const ENTRIES: usize = ngrams::RECORDS_END;

pub const INDEX_SIZE: usize = ENTRIES + 2 * ENTRIES_MOST;

// Where entry k, counted from 0, stands in the loaded book.
pub fn entry_place(index: &[u16], k: usize) -> usize
    requires { entry_halves k + 1 < length index.now }
    ensures { result ≡ entry_place index.now k }
{
    halves::whole_at(index, ENTRIES + 2 * k)
}

// The place of the line at `at`, put behind the `count` places before it where the line is a P line; how many there are then.
fn put_place(book: &[i32], at: usize, index: &mut [u16], count: usize) -> usize
    requires at_in_bounds { (at ≤ length book.now) × (at < 2 ^ 32) }
    requires count_in_bounds { is_p (drop at book.now) ≡ true → entry_halves count + 1 < length index.old }
    ensures value { result ≡ count + one (is_p (drop at book.now)) }
    ensures index_after { index.new ≡ with_place book.now at index.old count }
{
    if loaded::is_entry_at(book, at) {
        halves::put_whole(index, ENTRIES + 2 * count, at);
        count + 1
    } else {
        count
    }
}

// Where each P line of a book that passed 2 to 6 stands, in their order, noted in the list's last part; how many there
// are. What stands before that part is kept.
pub fn find_entries(book: &[i32], index: &mut [u16]) -> usize
    requires book_value { book_refusal book.now ≡ 0 }
    requires index_size_in_bounds { index_size ≤ length index.old }
    ensures { Placed book.now index.old index.new result }
{
    let mut count = 0;
    for (at, _) in Lines::new(book) {
        count = put_place(book, at, index, count);
    }
    count
}
