// A loaded book is opened once: questions 2 to 6, 21 and 20, the index of its n-grams and the places of its entries. Then a direction is
// begun: questions 9 and 10, and the numbers that a search or a score works on.
#![tactic(auto)]

ghost use Rattle.std.specs.Prelude.{◌≡◌, ◌≤◌, length};
ghost use Rattle.meaning.specs.Book.{book_refusal, book_of};
ghost use Rattle.book.specs.Entries.{index_size};
ghost use Rattle.opening.specs.Opening.{Open, OpenedAs, SetupOf, BegunAs, StartOf};

use book::entries;
use derivation::Setup;
use language::LanguageModel;
use loading::load;
use meaning::Refusal;

// How many entries a book has, how many n-grams, and how many of those are pairs and words.
#[derive(Clone, Copy)]
pub struct Counts {
    pub phrases: usize,
    pub grams: usize,
    pub shorter: usize,
}

// Questions 2 to 6, 21 and 20 of a loaded book. Where they pass, `index` holds what is known of it: its n-grams as indexed records, and
// the places of its entries; after a refusal, what it holds is not said.
pub fn open_book(book: &[i32], index: &mut [u16]) -> Result<Counts, Refusal>
    requires { index_size ≤ length index.old }
    ensures { OpenedAs book.now index.new result }
{
    let grams = load::load(book, index)?;
    let phrases = entries::find_entries(book, index);
    Ok(Counts {
        phrases,
        grams: grams.count,
        shorter: grams.shorter,
    })
}

// The numbers of the B line: the reordering limit, the penalty, and the score of an unseen word; beside them the counts.
fn setup_of(book: &[i32], n: usize, counts: Counts) -> Setup
    requires { book_refusal book.now ≡ 0 }
    ensures { SetupOf (book_of book.now) n counts result }
{
    let limit = lines::natural_at(book, 1);
    let eta = lines::number_at(book, 2);
    let unseen = lines::number_at(book, 3);
    Setup {
        n,
        limit,
        eta: i64::from(eta),
        phrases: counts.phrases,
        model: LanguageModel {
            count: counts.grams,
            shorter: counts.shorter,
            unseen: i64::from(unseen),
        },
    }
}

// Questions 9 and 10 of a direction, for a book that is open. (`index` is for the contract.)
pub fn begin(
    book: &[i32],
    index: &[u16],
    counts: Counts,
    direction: &[u16],
) -> Result<Setup, Refusal>
    requires { Open book.now index.now counts }
    ensures { BegunAs book.now direction.now index.now result }
{
    direction::check_direction(direction)?;
    Ok(setup_of(book, direction.len(), counts))
}

// One book and one direction: 2 to 6, 21 and 20, then 9 and 10.
pub fn open_and_begin(book: &[i32], direction: &[u16], index: &mut [u16]) -> Result<Setup, Refusal>
    requires { index_size ≤ length index.old }
    ensures { StartOf book.now direction.now index.new result }
{
    let counts = open_book(book, index)?;
    begin(book, index, counts, direction)
}
