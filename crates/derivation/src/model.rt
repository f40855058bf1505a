// The language model's part of a step: the triples that a row of target words ends.
ghost use Rattle.std.specs.Prelude.{◌≡◌, ◌+◌, ◌-◌, ◌<◌, length};
ghost use Rattle.laws.specs.Integers.{Within};
ghost use Rattle.meaning.specs.Bounds.{triple_bound, words_bound};
ghost use Rattle.meaning.specs.Book.{Entry};
ghost use Rattle.derivation.specs.Model.{Model, word_of, empty_row, with_word, with_words, PhraseOf, Phrased};

use crate::{Phrase, Row, Setup};

// One target word more: the score of the triple that it ends comes to the sum. A phrase has up to eight target words, so there is room for one triple's
// score below words_bound, 24,000,000, and 32 bits hold the sum. (g and eta × jump are no part of it; `step::gain` adds them, in 64 bits.)
fn add_word(index: &[u16], t: Setup, s: Row, y: u16) -> Row
    requires model { Model index.now t }
    requires within { Within (words_bound - triple_bound) s.score }
    ensures { result ≡ with_word index.now t s y }
{
    let triple = language::triple_score(
        index,
        t.model,
        s.word1 as usize,
        s.word2 as usize,
        y as usize,
    );
    Row {
        // within words_bound
        score: s.score + triple as i32,
        word1: s.word2,
        word2: y,
    }
}

// A number of the book as a word.
pub fn word_of(x: i32) -> u16
    ensures { result ≡ word_of x }
{
    (lines::natural(x) % lines::WORD_SPAN) as u16
}

// The row of the entry's target words after the words word1 and word2. They stand side by side in the book.
pub fn row_of(book: &[i32], index: &[u16], t: Setup, p: Phrase, word1: u16, word2: u16) -> Row
    requires model { Model index.now t }
    requires phrased { Phrased book.now p }
    ensures value { (e : Entry) → PhraseOf book.now e p → result ≡ with_words index.now t (empty_row word1 word2) e.target }
    ensures within { Within words_bound result.score }
{
    let mut row = Row {
        score: 0,
        word1,
        word2,
    };
    for x in &book[p.target..p.target + p.count] {
        row = add_word(index, t, row, word_of(*x));
    }
    row
}
