// The target words of a list of steps, and which of triple, pair, word or u supplied the score of each: ticket 3's four counts. They are taken once, of an
// answer or of a proposed list that was scored; the search does not count.
#![tactic(auto)]

ghost use Rattle.std.specs.Prelude.{◌≡◌, ℕ, ◌*◌, ◌^◌, ◌≤◌, ◌<◌, length};
ghost use Rattle.meaning.specs.Book.{Entry, book_of};
ghost use Rattle.meaning.specs.Reply.{written_over};
ghost use Rattle.meaning.specs.Derivation.{target_words, suppliers, counts_by, in_all, supplied_of};
ghost use Rattle.book.specs.Entries.{EntriesAt};
ghost use Rattle.ngrams.specs.Grams.{grams_in};
ghost use Rattle.language.specs.Language.{IsModel};
ghost use Rattle.derivation.specs.Model.{PhraseOf, Phrased};
ghost use Rattle.derivation.specs.Prepared.{Prepared};
ghost use Rattle.records.specs.Plain.{step_in, steps_of};
ghost use Rattle.judging.specs.Judging.{with_supplier};

use derivation::{Phrase, Setup};
use meaning::{Supplied, Supplier};
use records::Plain;

// ---- the target words

// The entry's target words at the beginning of a list.
fn copy_words(book: &[i32], p: Phrase, words: &mut [u16])
    requires phrased { Phrased book.now p }
    requires count_in_bounds { p.count ≤ length words.old }
    ensures { (e : Entry) → PhraseOf book.now e p → words.new ≡ written_over e.target words.old }
{
    for (j, x) in book[p.target..p.target + p.count].iter().enumerate() {
        words[j] = derivation::model::word_of(*x);
    }
}

// Each step's target words follow those of the step before; how many there are.
// Document 01's form: the rest of the word list, from the current count, is lent on to the copier of one entry's words.
pub fn write_words(
    book: &[i32],
    index: &[u16],
    phrases: usize,
    plain: Plain,
    words: &mut [u16],
) -> usize
    requires entries_at { EntriesAt book.now index.now phrases }
    requires count_bound { (plain.count ≤ 33) × (8 * plain.count ≤ length words.old) }
    requires by_index { (k : ℕ) → k < plain.count → (1 ≤ (step_in plain k).entry) × ((step_in plain k).entry ≤ phrases) }
    ensures value { result ≡ length (target_words (book_of book.now) (steps_of plain)) }
    ensures words_after { words.new ≡ written_over (target_words (book_of book.now) (steps_of plain)) words.old }
{
    let mut count = 0;
    for k in 0..plain.count {
        let step = records::step_in(plain, k);
        let p = derivation::places::phrase_at(book, index, phrases, step.entry as usize);
        copy_words(book, p, &mut words[count..]);
        count += p.count;
    }
    count
}

// ---- who supplied their scores

// One word more that `by` supplied.
fn with_supplier(mut s: Supplied, by: Supplier) -> Supplied
    requires { in_all s < 2 ^ 63 }
    ensures { result ≡ with_supplier s by }
{
    match by {
        Supplier::Triple => s.triples += 1,
        Supplier::Pair => s.pairs += 1,
        Supplier::Word => s.words += 1,
        Supplier::Unseen => s.unseen += 1,
    }
    s
}

// The four counts of a row of target words, before which two start symbols stand.
pub fn judge_words(index: &[u16], t: Setup, words: &[u16]) -> Supplied
    requires { IsModel index.now t.model }
    ensures { result ≡ counts_by (suppliers (grams_in index.now t.model.count) 0 0 words.now) }
{
    let mut s = Supplied {
        triples: 0,
        pairs: 0,
        words: 0,
        unseen: 0,
    };
    let mut v = 0;
    let mut w = 0;
    for word in words {
        let y = *word as usize;
        s = with_supplier(s, language::supplier(index, t.model, v, w, y));
        v = w;
        w = y;
    }
    s
}

// The four counts of a list of steps. (`direction` is for the contract.)
pub fn judge_steps(
    book: &[i32],
    direction: &[u16],
    index: &[u16],
    t: Setup,
    plain: Plain,
) -> Supplied
    requires prepared { Prepared book.now direction.now index.now t }
    requires count_bound { plain.count ≤ 33 }
    requires by_index { (k : ℕ) → k < plain.count → (1 ≤ (step_in plain k).entry) × ((step_in plain k).entry ≤ t.phrases) }
    ensures { result ≡ supplied_of (book_of book.now) (steps_of plain) }
{
    let mut words = [0u16; 264];
    let count = write_words(book, index, t.phrases, plain, &mut words);
    judge_words(index, t, &words[..count])
}
