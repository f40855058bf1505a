// Checking a loaded book, and the target words of its entries.
ghost use Rattle.std.specs.Prelude.{◌≡◌, eqb};
ghost use Rattle.meaning.specs.Book.{book_refusal, target_part};
ghost use Rattle.meaning.specs.Reply.{reply_of, check_book};
ghost use Rattle.book.specs.Target.{IsPart, IsPartOf};
ghost use Rattle.loading.specs.Loaded.{replied};

use crate::load;
use crate::load::Grams;
use book::target;
use book::target::Part;
use meaning::Refusal;

// The answer without what a search needs.
pub fn reply_of(loaded: Result<Grams, Refusal>) -> Result<(), Refusal>
    ensures { result ≡ replied loaded }
{
    loaded?;
    Ok(())
}

// Questions 2 to 6, 21 and 20, of a loaded book.
pub fn check_book(book: &[i32]) -> Result<(), Refusal>
    ensures { reply_of result ≡ check_book book.now }
{
    let mut index = [0u16; ngrams::RECORDS_END];
    let loaded = load::load(book, &mut index);
    reply_of(loaded)
}

// Whether questions 2 to 6, 21 and 20 pass a loaded book.
fn passes(book: &[i32]) -> bool
    ensures { result ≡ eqb (book_refusal book.now) 0 }
{
    check_book(book).is_ok()
}

// Where the target words of an entry, counted from 1, stand in the list; for a number that is no entry, or a list that 2 to 6
// refuse, the empty part at the list's end.
pub fn target_part(book: &[i32], entry: usize) -> Part
    ensures { IsPart book.now result (target_part book.now entry) }
{
    if passes(book) {
        return target::find_target(book, entry);
    }
    Part {
        start: book.len(),
        size: 0,
    }
}

// The target words of an entry. Document 01's form: the sub-slice of the caller's book that holds them.
pub fn target_words(book: &[i32], entry: usize) -> &[i32]
    ensures { IsPartOf book.entry result (target_part book.now entry) }
{
    let part = target_part(book, entry);
    let start = part.start;
    let end = start + part.size;
    &book[start..end]
}
