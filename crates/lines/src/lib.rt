// A line of a book as numbers, its kind first: what questions 2 and 4 ask of one line. A text's line and a loaded list's line
// are judged by the same functions.
#![tactic(auto)]

ghost use Rattle.std.specs.Prelude.{◌≡◌, ◌&&◌, ◌+◌, ◌-◌, ◌%◌, ◌≤◌, pos, neg_ℤ, length, drop};
ghost use mathlib.Core.List.{drop_last};
ghost use Rattle.laws.specs.Lists.{all};
ghost use Rattle.meaning.specs.Bounds.{word_span, word_most};
ghost use Rattle.meaning.specs.Questions.{withinℤ};
ghost use Rattle.laws.specs.Integers.{eqℤ, nat_of};
ghost use Rattle.meaning.specs.Book.{Form, size_b, number_at, natural_at, is_kind, is_phrase_length, phrase_size, size_of, is_whole, is_score, is_word, is_phrase_word, is_weight, ranges_b, ranges_p, ranges_t, ranges_u, ranges_d, is_in_range, order_of, kinds};
ghost use Rattle.lines.specs.Kinds.{kind_of, most_of};

// "At most 4,096 P .. lines."
pub const PHRASES_MOST: usize = 4096;

// "Up to 8,192 lines of each kind": T, U and D.
pub const GRAMS_MOST: usize = 8192;

// How many numbers a B line takes in a text, and how many in a loaded list, where the counts of the P and the T lines stand at its end.
pub const B_IN_TEXT: usize = 4;

pub const B_IN_LIST: usize = 6;

// How many kinds there are, and how many lines of each a book may have, by the kind's number; there is no kind 0.
pub const KINDS: usize = 5;

const MOST: [usize; KINDS + 1] = [0, 1, PHRASES_MOST, GRAMS_MOST, GRAMS_MOST, GRAMS_MOST];

// The numbers from 0, the start symbol, to the last word.
pub const WORD_SPAN: usize = 65536;

// The number, or 0 where it is negative.
pub fn natural(x: i32) -> usize
    ensures { result ≡ nat_of x }
{
    x.max(0) as usize
}

// Number k of the line, or 0 behind its end.
pub fn number_at(line: &[i32], k: usize) -> i32
    ensures { result ≡ number_at line.now k }
{
    line.get(k).copied().unwrap_or(0)
}

// The same, or 0 where it is negative.
pub fn natural_at(line: &[i32], k: usize) -> usize
    ensures { result ≡ natural_at line.now k }
{
    natural(number_at(line, k))
}

// The same as a word: what passes 65,535 (question 4 refuses it) loses its multiples of 65,536.
pub fn word_at(line: &[i32], k: usize) -> u16
    ensures { result ≡ natural_at line.now k % word_span }
{
    (natural_at(line, k) % WORD_SPAN) as u16
}

// Number k of the line is n.
pub fn is_number(line: &[i32], k: usize, n: usize) -> bool
    ensures { result ≡ eqℤ (number_at line.now k) (pos n) }
{
    let x = number_at(line, k);
    0 <= x && x as usize == n
}

// The line is of the kind k, row k of the table: 1 for B, 2 for P, 3 for T, 4 for U, 5 for D.
pub fn is_kind(line: &[i32], k: usize) -> bool
    ensures { result ≡ is_kind k line.now }
{
    is_number(line, 0, k)
}

// The kind of the line, the number of its row in the table; 0 where it is of none.
#[tactic(auto, unfolding(crate::specs::Kinds::kind_of))]
pub fn kind_of(line: &[i32]) -> usize
    ensures { result ≡ kind_of line.now }
{
    let k = natural_at(line, 0);
    if k <= KINDS { k } else { 0 }
}

// How many lines of kind k a book may have.
pub fn most_of(k: usize) -> usize
    requires { k ≤ length kinds }
    ensures { result ≡ most_of k }
{
    MOST[k]
}

// How many words the n-gram has that the line lists: three of a T, two of a D, one of a U line; 0 where it lists none.
#[tactic(auto, using(crate::proofs::Lines::order_row))]
pub fn order_of(line: &[i32]) -> usize
    ensures value { result ≡ order_of line.now }
    ensures upper_bound { result ≤ 3 }
{
    match kind_of(line) {
        3 => 3,
        5 => 2,
        4 => 1,
        _ => 0,
    }
}

// The number of source or of target words of a P line.
fn is_phrase_length(x: i32) -> bool
    ensures { result ≡ is_phrase_length x }
{
    (1..=8).contains(&x)
}

// How many numbers a P line takes; 0 where a or b is out of its range.
fn size_of_phrase(line: &[i32]) -> usize
    ensures { result ≡ phrase_size line.now }
{
    if is_phrase_length(number_at(line, 1)) && is_phrase_length(number_at(line, 2)) {
        natural_at(line, 1) + natural_at(line, 2) + 4
    } else {
        0
    }
}

// How many numbers the line that stands at the front takes, where a B line takes `b`: by nothing else do the lines of a text and of a loaded list
// differ; 0 where that cannot be told (question 2).
#[tactic(auto, using(crate::proofs::Lines::size_row))]
pub fn size_of(line: &[i32], b: usize) -> usize
    ensures { (form : Form) → b ≡ size_b form → result ≡ size_of form line.now }
{
    match kind_of(line) {
        1 => b,
        2 => size_of_phrase(line),
        3 => 5,
        4 => 4,
        5 => 5,
        _ => 0,
    }
}

// Question 2, of a line, where a B line takes `b` numbers.
#[tactic(auto, using(crate::proofs::Lines::whole_empty, crate::proofs::Lines::whole_some))]
pub fn is_whole(line: &[i32], b: usize) -> bool
    ensures { (form : Form) → b ≡ size_b form → result ≡ is_whole form line.now }
{
    !line.is_empty() && line.len() == size_of(line, b)
}

// A score u, g or s, or a back-off weight k.
pub fn is_score(x: i32) -> bool
    ensures { result ≡ is_score x }
{
    (-1_000_000..=1_000_000).contains(&x)
}

// A word, 1 to 65,535.
pub fn is_word(x: i32) -> bool
    ensures { result ≡ is_word x }
{
    (1..=65_535).contains(&x)
}

// A word or 0, the start symbol: the word v or w of a triple, the word w of a pair, the word y of a U line.
fn is_word_or_start(x: i32) -> bool
    ensures { result ≡ withinℤ (pos 0) (pos word_most) x }
{
    (0..=65_535).contains(&x)
}

// The reordering limit d of a B line.
fn is_limit(x: i32) -> bool
    ensures { result ≡ withinℤ (pos 0) (pos 32) x }
{
    (0..=32).contains(&x)
}

// The penalty eta of a B line.
fn is_penalty(x: i32) -> bool
    ensures { result ≡ withinℤ (neg_ℤ (pos 10_000)) (pos 10_000) x }
{
    (-10_000..=10_000).contains(&x)
}

// Question 4, of a B line.
fn ranges_b(line: &[i32]) -> bool
    ensures { result ≡ ranges_b line.now }
{
    is_limit(number_at(line, 1)) && is_penalty(number_at(line, 2)) && is_score(number_at(line, 3))
}

// Each of the numbers is a word.
#[tactic(auto, using(crate::proofs::Lines::all_is))]
pub fn all_words(numbers: &[i32]) -> bool
    ensures { result ≡ all is_word numbers.now }
{
    numbers.iter().all(|x| is_word(*x))
}

// The words of a P line: what stands between its first three numbers and its last.
#[tactic(auto, using(crate::proofs::Lines::middle))]
fn are_words(line: &[i32]) -> bool
    ensures { result ≡ all is_phrase_word (drop_last (drop 3 line.now)) }
{
    match line {
        [_, _, _, words @ .., _] => all_words(words),
        _ => true,
    }
}

// The last number of a line, or 0 where there is none.
fn last_of(line: &[i32]) -> i32
    ensures { result ≡ number_at line.now (length line.now - 1) }
{
    line.last().copied().unwrap_or(0)
}

// Question 4, of a P line.
pub fn ranges_p(line: &[i32]) -> bool
    ensures { result ≡ ranges_p line.now }
{
    are_words(line) && is_score(last_of(line))
}

// Question 4, of a T line.
fn ranges_t(line: &[i32]) -> bool
    ensures { result ≡ ranges_t line.now }
{
    is_word_or_start(number_at(line, 1))
        && is_word_or_start(number_at(line, 2))
        && is_word(number_at(line, 3))
        && is_score(number_at(line, 4))
}

// The score at k and the back-off weight behind it.
fn is_weighted(line: &[i32], k: usize) -> bool
    requires { k ≤ 3 }
    ensures { result ≡ is_score (number_at line.now k) && is_weight (number_at line.now (k + 1)) }
{
    is_score(number_at(line, k)) && is_score(number_at(line, k + 1))
}

// Question 4, of a U line.
fn ranges_u(line: &[i32]) -> bool
    ensures { result ≡ ranges_u line.now }
{
    is_word_or_start(number_at(line, 1)) && is_weighted(line, 2)
}

// Question 4, of a D line.
fn ranges_d(line: &[i32]) -> bool
    ensures { result ≡ ranges_d line.now }
{
    is_word_or_start(number_at(line, 1)) && is_word(number_at(line, 2)) && is_weighted(line, 3)
}

// Question 4, of a line; no number of an unknown kind, which question 2 refuses, is in range.
#[tactic(auto, using(crate::proofs::Lines::range_row, crate::proofs::Lines::range_none))]
pub fn is_in_range(line: &[i32]) -> bool
    ensures { result ≡ is_in_range line.now }
{
    match kind_of(line) {
        1 => ranges_b(line),
        2 => ranges_p(line),
        3 => ranges_t(line),
        4 => ranges_u(line),
        5 => ranges_d(line),
        _ => false,
    }
}
