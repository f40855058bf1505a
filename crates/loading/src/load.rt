// A book's questions 2 to 6, 21 and 20, asked of the survey of its lines, and what a search needs of a book that passes them. The survey
// is of a loaded list or of a text: what follows it is the same.
ghost use Rattle.std.specs.Prelude.{◌≡◌, true, List, ℤ, length, ℕ, ◌≤◌};
ghost use Rattle.meaning.specs.Questions.{◌unless◌, ◌orelse◌};
ghost use Rattle.meaning.specs.Book.{Form, is_counted, lines_refusal, book_of_lines, book_refusal, book_of};
ghost use Rattle.ngrams.specs.Parts.{records_end, record_at};
ghost use Rattle.book.specs.declared.survey.Survey.{Survey};
ghost use Rattle.book.specs.Survey.{gram_count, are_all_few, survey_refusal};
ghost use Rattle.loading.specs.Loaded.{refusal_of, WholeAs, SurveyIs, stores_counts, CountedAs, Answered};

use book::survey::{Survey, Tally};
use book::{loaded, survey};
use meaning::Refusal;

// How many of a book's lines list an n-gram, and how many of those a pair or a word.
#[derive(Clone, Copy)]
pub struct Grams {
    pub count: usize,
    pub shorter: usize,
}

// Questions 3 to 5 and 21, of all lines.
fn judge(s: Survey, counted: bool, tally: &Tally) -> Result<(), Refusal>
    ensures { refusal_of result ≡ survey_refusal s tally.now orelse 21 unless counted }
{
    if let Some(refusal) = survey::refusal_of(s, tally) {
        return Err(refusal);
    }
    if !counted {
        return Err(Refusal::StoredCounts);
    }
    Ok(())
}

// Whether the two counts that a loaded list stores in its B record are those of the tally (question 21).
fn is_counted(book: &[i32], tally: &Tally) -> bool
    ensures { result ≡ stores_counts book.now tally.now }
{
    lines::is_number(book, lines::B_IN_TEXT, tally.phrases())
        && lines::is_number(book, lines::B_IN_TEXT + 1, tally.triples())
}

// Questions 6 and 20, of lines that passed 2 to 5 and 21. Where they pass, the records are indexed.
fn compare(index: &mut [u16], tally: &Tally) -> Result<Grams, Refusal>
    requires tally_in_bounds { record_at (gram_count tally.now) ≤ length index.old }
    requires tally_value { are_all_few tally.now ≡ true }
    ensures { (form : Form) (lines : List (List ℤ)) (index₀ : List ℕ) (s : Survey) → WholeAs form lines index₀ index.old tally.now s → survey_refusal s tally.now ≡ 0 → is_counted form lines ≡ true → Answered (lines_refusal form lines) (book_of_lines lines) index.new result }
{
    let count = tally.grams();
    if let Some(repeated) = ngrams::index_all(index, count) {
        return Err(repeated);
    }
    let shorter = tally.shorter();
    Ok(Grams { count, shorter })
}

// Questions 3 to 6, 21 and 20, of lines that passed 2; `counted` is what question 21 finds where 3 to 5 pass. Where question 5 passes, the list has
// room for the records of all their n-grams.
pub fn settle_whole(
    s: Survey,
    counted: bool,
    index: &mut [u16],
    tally: &Tally,
) -> Result<Grams, Refusal>
    requires { are_all_few tally.now ≡ true → record_at (gram_count tally.now) ≤ length index.old }
    ensures { (form : Form) (lines : List (List ℤ)) (index₀ : List ℕ) → WholeAs form lines index₀ index.old tally.now s → CountedAs form lines counted → Answered (lines_refusal form lines) (book_of_lines lines) index.new result }
{
    judge(s, counted, tally)?;
    compare(index, tally)
}

// Questions 2 to 6, 21 and 20, of lines that were surveyed, their records in `index` and how many there are of each kind in the tally.
// Where they pass, the records are indexed.
pub fn settle(
    surveyed: Option<Survey>,
    counted: bool,
    index: &mut [u16],
    tally: &Tally,
) -> Result<Grams, Refusal>
    requires { are_all_few tally.now ≡ true → record_at (gram_count tally.now) ≤ length index.old }
    ensures { (form : Form) (lines : List (List ℤ)) (index₀ : List ℕ) → SurveyIs form lines index₀ index.old tally.now surveyed → CountedAs form lines counted → Answered (lines_refusal form lines) (book_of_lines lines) index.new result }
{
    let Some(s) = surveyed else {
        return Err(Refusal::LineFields);
    };
    settle_whole(s, counted, index, tally)
}

// Questions 2 to 6, 21 and 20, of a loaded book. Where they pass, `index` holds its n-grams as indexed records; after a refusal, what it
// holds is not said.
pub fn load(book: &[i32], index: &mut [u16]) -> Result<Grams, Refusal>
    requires { records_end ≤ length index.old }
    ensures { Answered (book_refusal book.now) (book_of book.now) index.new result }
{
    let mut tally = Tally::new();
    let surveyed = loaded::survey_loaded(book, index, &mut tally);
    let counted = is_counted(book, &tally);
    settle(surveyed, counted, index, &tally)
}
