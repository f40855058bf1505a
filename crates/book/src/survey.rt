// What questions 3 to 5 ask of all the lines of a book, gathered one line at a time. The lines of a text and those of a
// loaded list pass through the same functions. How many lines there are of each kind is the tally.
ghost use Rattle.std.specs.Prelude.{◌≡◌, ◌&&◌, eqb, List, ℕ, ◌^◌, ◌≤◌, ◌<◌, get_or};
ghost use Rattle.ngrams.specs.Grams.{number_or0};
ghost use Rattle.book.specs.Survey.{fresh, with_line, no_tally, with_kind, shorter_count, gram_count, are_all_few, lines_most, survey_refusal};

use meaning::Refusal;
use std::marker::Model;

// What is known of the lines seen so far, beside the tally: how many they are, whether the first is a B line, and whether every
// number is in its range.
#[derive(Clone, Copy)]
pub struct Survey {
    pub lines: usize,
    pub headed: bool,
    pub ranged: bool,
}

// No line was seen.
pub fn fresh() -> Survey
    ensures { result ≡ fresh }
{
    Survey {
        lines: 0,
        headed: false,
        ranged: true,
    }
}

// Both of two tests that were made already.
pub fn and_also(a: bool, b: bool) -> bool
    ensures { result ≡ a && b }
{
    a && b
}

// One line more. What the first line said, no later line changes.
#[tactic(auto, unfolding(crate::specs::Survey::with_line))]
pub fn with_line(acc: Survey, line: &[i32]) -> Survey
    requires { acc.lines ≤ lines_most }
    ensures { result ≡ with_line acc line.now }
{
    let headed = if acc.lines == 0 {
        lines::is_kind(line, 1)
    } else {
        acc.headed
    };
    Survey {
        lines: acc.lines + 1,
        headed,
        ranged: acc.ranged && lines::is_in_range(line),
    }
}

// How many lines there are of each kind: a number for each row of the table of kinds and, as number 0, one for what is of no kind.
#[derive(Drop)]
pub struct Tally {
    pub counts: [usize; lines::KINDS + 1],
}

impl Model for Tally {
    ghost Value = { List ℕ };

    ghost view = { λ t. t.counts };
}

impl Tally {
    // No line was seen.
    pub fn new() -> Tally
        ensures { result ≡ no_tally }
    {
        Tally {
            counts: [0; lines::KINDS + 1],
        }
    }

    // One line more.
    #[tactic(auto, using(lines::proofs::Lines::row_known), unfolding(crate::specs::Survey::with_kind))]
    pub fn count(&mut self, line: &[i32])
        requires { (k : ℕ) → get_or self.old k 0 ≤ lines_most }
        ensures { self.new ≡ with_kind self.old line.now }
    {
        self.counts[lines::kind_of(line)] += 1;
    }

    // How many P lines there are.
    pub fn phrases(&self) -> usize
        ensures { result ≡ get_or self.now 2 0 }
    {
        self.counts[2]
    }

    // How many T lines.
    pub fn triples(&self) -> usize
        ensures { result ≡ get_or self.now 3 0 }
    {
        self.counts[3]
    }

    // How many U lines.
    pub fn words(&self) -> usize
        ensures { result ≡ get_or self.now 4 0 }
    {
        self.counts[4]
    }

    // How many D lines.
    pub fn pairs(&self) -> usize
        ensures { result ≡ get_or self.now 5 0 }
    {
        self.counts[5]
    }

    // How many of the lines list a pair or a word: U and D lines.
    pub fn shorter(&self) -> usize
        requires { shorter_count self.now < 2 ^ 64 }
        ensures { result ≡ shorter_count self.now }
    {
        self.words() + self.pairs()
    }

    // How many list an n-gram: those, and T lines.
    pub fn grams(&self) -> usize
        requires { gram_count self.now < 2 ^ 64 }
        ensures { result ≡ gram_count self.now }
    {
        self.triples() + self.shorter()
    }

    // Whether there is one B line.
    fn has_one_b(&self) -> bool
        ensures { result ≡ eqb (get_or self.now 1 0) 1 }
    {
        self.counts[1] == 1
    }

    // Question 5: no more of each kind from the second row on than the row allows.
    fn are_all_few(&self) -> bool
        ensures { result ≡ are_all_few self.now }
    {
        (2..=lines::KINDS).all(|k| self.counts[k] <= lines::most_of(k))
    }
}

// The first of questions 3 to 5 that the lines do not pass, or none.
#[tactic(auto, unfolding(crate::specs::Survey::survey_refusal))]
pub fn refusal_of(s: Survey, tally: &Tally) -> Option<Refusal>
    ensures { number_or0 result ≡ survey_refusal s tally.now }
{
    if !(s.headed && tally.has_one_b()) {
        return Some(Refusal::BLine);
    }
    if !s.ranged {
        return Some(Refusal::NumberRange);
    }
    if !tally.are_all_few() {
        return Some(Refusal::LineCount);
    }
    None
}
