// An entry of the book by its places in the loaded list.
ghost use Rattle.std.specs.Prelude.{◌+◌, ◌≤◌};
ghost use Rattle.meaning.specs.Book.{book_of};
ghost use Rattle.meaning.specs.Derivation.{entry_at};
ghost use Rattle.book.specs.Entries.{EntriesAt};
ghost use Rattle.derivation.specs.Model.{PhraseOf};

use crate::Phrase;
use book::entries;

// Entry k of the book, counted from 1.
pub fn phrase_at(book: &[i32], index: &[u16], count: usize, k: usize) -> Phrase
    requires entries_at { EntriesAt book.now index.now count }
    requires le_k { (1 ≤ k) × (k ≤ count) }
    ensures { PhraseOf book.now (entry_at (book_of book.now) k) result }
{
    let at = entries::entry_place(index, k - 1);
    let long = lines::natural_at(book, at + 1);
    let count = lines::natural_at(book, at + 2);
    let g = lines::number_at(book, at + (3 + long + count));
    Phrase {
        source: at + 3,
        long,
        target: at + (3 + long),
        count,
        g: g as i64,
    }
}
