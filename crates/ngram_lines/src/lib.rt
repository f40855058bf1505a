// The line of an n-gram of an ARPA text, and what becomes of it: it is passed over, it is `<unk>` alone, or it becomes a U, D or T line. `count` is how many
// fields it has, and `places` says where they stand.
#![tactic(auto)]

ghost use Rattle.std.specs.Prelude.{◌≡◌, true, List, ℕ, ◌≤◌, length, take};
ghost use Rattle.arpa.specs.Values.{is_value, thousandths};
ghost use Rattle.arpa.specs.File.{is_gram_line, ngram_of};
ghost use Rattle.arpa.specs.Import.{holds, is_passed_over, line_of};
ghost use Rattle.tokens.specs.Scan.{field_at, FieldNoted};
ghost use Rattle.tokens.specs.Fields.{FieldsAt};
ghost use Rattle.thousandths.specs.Rounded.{Rounded};
ghost use Rattle.ngram_lines.specs.Gram.{GramRead, WordIs, AreSmall, numbers_of, WordsAre, GramIs};

use spelling::WordList;
use tokens::scan;

// How many fields the line has, and the n-gram's order.
#[derive(Clone, Copy)]
pub struct Fields {
    pub count: usize,
    pub order: usize,
}

// The numbers of an n-gram's words, 0 for each that it does not have, and whether all of them are known.
#[derive(Clone, Copy)]
pub struct Words {
    pub first: usize,
    pub second: usize,
    pub third: usize,
    pub known: bool,
}

// A line at a row's front: how many numbers it has, whether the word list has its words, and whether its values are in a score's range.
#[derive(Clone, Copy)]
pub struct Row {
    pub size: usize,
    pub known: bool,
    pub ranged: bool,
}

// What becomes of an n-gram; of `<unk>` alone its value is told.
#[derive(Clone, Copy)]
pub enum Gram {
    PassedOver,
    Unknown(i32),
    Line(Row),
}

// ---- which are passed over

// Whether one of the n-gram's words is the word.
fn has_word(text: &[u8], places: &[usize], at: Fields, word: &[u8]) -> bool
    requires { GramRead text.now places.now at.count at.order }
    ensures { (fields : List (List ℕ)) → FieldsAt text.now places.now at.count fields → result ≡ holds word.now (ngram_of at.order fields) }
{
    for k in 1..=at.order {
        if scan::field(text, places, k) == word {
            return true;
        }
    }
    false
}

// Whether it is passed over.
fn is_passed_over(text: &[u8], places: &[usize], at: Fields) -> bool
    requires { GramRead text.now places.now at.count at.order }
    ensures { (fields : List (List ℕ)) (top : ℕ) → FieldsAt text.now places.now at.count fields → is_gram_line top at.order fields ≡ true → result ≡ is_passed_over (ngram_of at.order fields) }
{
    if has_word(text, places, at, b"</s>") {
        return true;
    }
    let order = at.order;
    if order < 2 {
        return false;
    }
    if has_word(text, places, at, b"<unk>") {
        return true;
    }
    scan::field(text, places, order) == b"<s>".as_slice()
}

// ---- words and values

// The number of a word, where it has one: `<s>` is 0, and every other word is looked up.
fn find(words: &WordList, word: &[u8]) -> Option<usize>
    ensures { WordIs words.now.list.now word.now result }
{
    if word == b"<s>".as_slice() {
        return Some(0);
    }
    words.number_of(word)
}

// The numbers of its words.
fn words_of(text: &[u8], places: &[usize], at: Fields, words: &WordList) -> Words
    requires { GramRead text.now places.now at.count at.order }
    ensures { (fields : List (List ℕ)) (top : ℕ) → FieldsAt text.now places.now at.count fields → is_gram_line top at.order fields ≡ true → WordsAre words.now.list.now (ngram_of at.order fields).words at.order result }
{
    let order = at.order;
    let first = find(words, scan::field(text, places, 1));
    if order == 1 {
        return Words {
            first: first.unwrap_or(0),
            second: 0,
            third: 0,
            known: first.is_some(),
        };
    }
    let second = find(words, scan::field(text, places, 2));
    if order == 2 {
        return Words {
            first: first.unwrap_or(0),
            second: second.unwrap_or(0),
            third: 0,
            known: first.is_some() & second.is_some(),
        };
    }
    let third = find(words, scan::field(text, places, 3));
    Words {
        first: first.unwrap_or(0),
        second: second.unwrap_or(0),
        third: third.unwrap_or(0),
        known: first.is_some() & second.is_some() & third.is_some(),
    }
}

// The value of field k.
fn value_at(text: &[u8], places: &[usize], k: usize) -> i32
    requires field_noted { FieldNoted text.now places.now k }
    requires k_value { is_value (field_at text.now places.now k) ≡ true }
    ensures { Rounded (thousandths (field_at text.now places.now k)) result }
{
    thousandths::value_of(scan::field(text, places, k))
}

// Its weight; a missing one is 0.
fn weight_of(text: &[u8], places: &[usize], at: Fields) -> i32
    requires { GramRead text.now places.now at.count at.order }
    ensures { (fields : List (List ℕ)) (top : ℕ) → FieldsAt text.now places.now at.count fields → is_gram_line top at.order fields ≡ true → Rounded (ngram_of at.order fields).weight result }
{
    let order = at.order;
    if at.count == order + 2 {
        return value_at(text, places, order + 1);
    }
    0
}

// ---- the line

// Puts the line of an n-gram of the order at the row's front: a U, D or T line; how many numbers it has.
fn put_row(row: &mut [i32], order: usize, words: Words, score: i32, weight: i32) -> usize
    requires in_bounds { 5 ≤ length row.old }
    requires le_order { (1 ≤ order) × (order ≤ 3) }
    requires are_small { AreSmall words }
    ensures row_after { take result row.new ≡ line_of (numbers_of order words) score weight }
    ensures upper_bound { (result ≤ length row.new) × (length row.new ≡ length row.old) }
{
    let first = words.first as i32;
    if order == 1 {
        let line = [4, first, score, weight];
        moves::put_front(row, &line);
        return 4;
    }
    let second = words.second as i32;
    if order == 2 {
        let line = [5, first, second, score, weight];
        moves::put_front(row, &line);
        return 5;
    }
    let third = words.third as i32;
    let line = [3, first, second, third, score];
    moves::put_front(row, &line);
    5
}

// What becomes of the n-gram; its line, where it has one, is put at the row's front.
pub fn read_gram(
    text: &[u8],
    places: &[usize],
    at: Fields,
    words: &WordList,
    row: &mut [i32],
) -> Gram
    requires gram_read { GramRead text.now places.now at.count at.order }
    requires in_bounds { 5 ≤ length row.old }
    ensures by_index { (fields : List (List ℕ)) (top : ℕ) → FieldsAt text.now places.now at.count fields → is_gram_line top at.order fields ≡ true → GramIs words.now.list.now (ngram_of at.order fields) row.new result }
    ensures row_len_unchanged { length row.new ≡ length row.old }
{
    if is_passed_over(text, places, at) {
        return Gram::PassedOver;
    }
    let score = value_at(text, places, 0);
    if outline::lines::is_unknown(text, places, at.count, at.order) {
        return Gram::Unknown(score);
    }
    let numbers = words_of(text, places, at, words);
    let weight = weight_of(text, places, at);
    let ranged = lines::is_score(score) & lines::is_score(weight);
    let size = put_row(row, at.order, numbers, score, weight);
    Gram::Line(Row {
        size,
        known: numbers.known,
        ranged,
    })
}
