// The n-grams of a book's lines, put into the one list beside the survey: the k-th T, U or D line is record k.
ghost use Rattle.std.specs.Prelude.{◌≡◌};
ghost use Rattle.book.specs.Survey.{with_line, with_kind, gram_count, lines_most, Few};
ghost use Rattle.book.specs.Grams.{with_gram};

use crate::survey;
use crate::survey::{Survey, Tally};

// A line that lists an n-gram, put as the record behind those of the `n` such lines before it. A line of another kind, or one for which
// there is no place, changes nothing.
fn put_gram(index: &mut [u16], n: usize, line: &[i32])
    ensures { index.new ≡ with_gram index.old n line.now }
{
    if lines::order_of(line) > 0 && ngrams::has_place(index, n) {
        ngrams::put_record(index, n, line);
    }
}

// One line more, of a text or of a loaded list: what it adds to the survey and to the tally, and its record where it lists an n-gram.
pub fn note_line(acc: Survey, index: &mut [u16], tally: &mut Tally, line: &[i32]) -> Survey
    requires { Few acc tally.old lines_most }
    ensures value { result ≡ with_line acc line.now }
    ensures tally_after { tally.new ≡ with_kind tally.old line.now }
    ensures index_after { index.new ≡ with_gram index.old (gram_count tally.old) line.now }
{
    let n = tally.grams();
    put_gram(index, n, line);
    tally.count(line);
    survey::with_line(acc, line)
}
