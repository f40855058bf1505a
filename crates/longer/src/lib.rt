// The questions of an import behind 23: 24 and 25 of the texts, then those of the caller's book, and those of the longer one.
#![tactic(auto)]

ghost use Rattle.std.specs.Prelude.{◌≡◌, ◌≤◌, length};
ghost use Rattle.meaning.specs.Questions.{number, ◌orelse◌};
ghost use Rattle.meaning.specs.Book.{book_refusal};
ghost use Rattle.ngrams.specs.Parts.{records_end};
ghost use Rattle.loading.specs.Loaded.{refusal_of};
ghost use Rattle.longer.specs.Longer.{Opened, model_refusal, texts_refusal, counts_in, AreSince, size_since, LongerChecked, JudgedAs};

use arpa_model::model;
use arpa_model::model::Model;
use arpa_model::walk::Cursor;
use book::survey::Tally;
use book::{loaded, survey};
use loading::{check, load};
use meaning::Refusal;
use spelling::WordList;

// How many U, D and T lines there are.
#[derive(Clone, Copy)]
struct Counts {
    words: usize,
    pairs: usize,
    triples: usize,
}

// What the longer book has: the value of `<unk>` alone, where the text lists it, how many T lines, and how many numbers more.
#[derive(Clone, Copy)]
pub struct Longer {
    pub unseen: Option<i32>,
    pub triples: usize,
    pub size: usize,
}

// Questions 24 and 25.
fn check_model(model: Model) -> Result<(), Refusal>
    ensures { refusal_of result ≡ model_refusal model }
{
    if !model.known {
        return Err(Refusal::UnlistedWord);
    }
    if !model.ranged {
        return Err(Refusal::ValueRange);
    }
    Ok(())
}

// The refusal of a book that its own questions refuse, where 24 and 25 pass.
fn refuse_book(text: &[u8], cursor: Cursor, words: &WordList, refusal: Refusal) -> Refusal
    requires opened { Opened text.now cursor }
    ensures { number result ≡ texts_refusal text.now words.now.list.now orelse number refusal }
{
    let mut grams = [0u16; 1];
    let mut tally = Tally::new();
    let model = model::note_model(text, cursor, words, &mut grams, &mut tally, survey::fresh());
    match check_model(model) {
        Ok(()) => refusal,
        Err(refusal) => refusal,
    }
}

// How many lines of each kind of n-gram the tally has.
fn counts_of(tally: &Tally) -> Counts
    ensures { result ≡ counts_in tally.now }
{
    Counts {
        words: tally.words(),
        pairs: tally.pairs(),
        triples: tally.triples(),
    }
}

// How many numbers the lines take that were counted since.
fn size_since(before: Counts, after: Counts) -> usize
    requires { AreSince before after }
    ensures { result ≡ size_since before after }
{
    4 * (after.words - before.words)
        + 5 * (after.pairs - before.pairs)
        + 5 * (after.triples - before.triples)
}

// Questions 24 and 25, and then those of the longer book, of whose lines the survey, the records and the tally are known.
fn check_longer(model: Model, grams: &mut [u16], tally: &Tally) -> Result<(), Refusal>
    requires records_end_in_bounds { records_end ≤ length grams.old }
    ensures { LongerChecked model grams.old tally.now result }
{
    check_model(model)?;
    check::reply_of(load::settle_whole(model.survey, true, grams, tally))
}

// The same, of a book that its own questions pass.
fn judge_longer(
    text: &[u8],
    cursor: Cursor,
    words: &WordList,
    book: &[i32],
) -> Result<Longer, Refusal>
    requires opened { Opened text.now cursor }
    requires book_value { book_refusal book.now ≡ 0 }
    ensures { JudgedAs text.now words.now.list.now book.now result }
{
    let mut grams = [0u16; ngrams::RECORDS_END];
    let mut tally = Tally::new();
    let surveyed = loaded::survey_loaded(book, &mut grams, &mut tally);
    let Some(survey) = surveyed else {
        return Err(Refusal::LineFields);
    };
    let before = counts_of(&tally);
    let model = model::note_model(text, cursor, words, &mut grams, &mut tally, survey);
    check_longer(model, &mut grams, &tally)?;
    let after = counts_of(&tally);
    Ok(Longer {
        unseen: model.unseen,
        triples: after.triples,
        size: size_since(before, after),
    })
}

// Questions 24 and 25, then those of the caller's book, and those of the longer one.
pub fn judge(text: &[u8], cursor: Cursor, words: &WordList, book: &[i32]) -> Result<Longer, Refusal>
    requires opened { Opened text.now cursor }
    ensures { JudgedAs text.now words.now.list.now book.now result }
{
    match check::check_book(book) {
        Ok(()) => judge_longer(text, cursor, words, book),
        Err(refusal) => { Err(refuse_book(text, cursor, words, refusal)) }
    }
}
