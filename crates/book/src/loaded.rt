// A loaded list, walked line by line.
ghost use Rattle.std.specs.Prelude.{◌≡◌, ◌+◌, ◌-◌, ◌≤◌, length, drop};
ghost use Rattle.std.specs.Iterator.{at_most};
ghost use Rattle.meaning.specs.Book.{is_p};
ghost use Rattle.book.specs.Survey.{no_tally};
ghost use Rattle.book.specs.Loaded.{size_at, SurveyOf};
ghost use Rattle.book.specs.Lines.{Passes};

use crate::survey::{Survey, Tally};
use crate::{grams, survey};

// How many numbers the line takes that stands at `at`, or 0 where no whole line stands there.
pub fn size_at(book: &[i32], at: usize) -> usize
    requires { at ≤ length book.now }
    ensures value { result ≡ size_at book.now at }
    ensures inside { at + result ≤ length book.now }
{
    let size = lines::size_of(&book[at..], lines::B_IN_LIST);
    if size <= book.len() - at { size } else { 0 }
}

// Whether the line at `at` is a P line.
pub fn is_entry_at(book: &[i32], at: usize) -> bool
    requires { at ≤ length book.now }
    ensures { result ≡ is_p (drop at book.now) }
{
    lines::is_kind(&book[at..], 2)
}

// The lines of a loaded list, one after the other, each with the place where it stands. They end where no whole line stands: behind the last line, or at the
// first that is not whole.
#[derive(Drop)]
pub struct Lines<'a> {
    book: &'a [i32],
    at: usize,
    ghost inside: { at ≤ length book.now },
}

impl<'a> Lines<'a> {
    pub fn new(book: &'a [i32]) -> Lines<'a>
        ensures list { result.book.now ≡ book.now }
        ensures front { result.at ≡ 0 }
    {
        Lines { book, at: 0 }
    }
}

impl<'a> Iterator for Lines<'a> {
    type Item = (usize, &'a [i32]);

    ghost next_gives = { λ s r t. (t.book.now ≡ s.book.now) × Passes s.book.now s.at r t.at };

    ghost remaining = { λ s. at_most (length s.book.now - s.at) };

    fn next(&mut self) -> Option<(usize, &'a [i32])> {
        let at = self.at;
        let size = size_at(self.book, at);
        if size == 0 {
            return None;
        }
        self.at = at + size;
        Some((at, &self.book[at..at + size]))
    }
}

// What is known of all lines of a loaded list; `index` gets the records of its n-grams, and the tally, all zero before, how many
// lines there are of each kind. Where a line is not whole, what the two hold afterwards is not said.
pub fn survey_loaded(book: &[i32], index: &mut [u16], tally: &mut Tally) -> Option<Survey>
    requires { tally.old ≡ no_tally }
    ensures { SurveyOf book.now index.old index.new tally.new result }
{
    let mut acc = survey::fresh();
    let mut end = 0;
    for (at, line) in Lines::new(book) {
        acc = grams::note_line(acc, index, tally, line);
        end = at + line.len();
    }
    if end < book.len() {
        return None;
    }
    Some(acc)
}
