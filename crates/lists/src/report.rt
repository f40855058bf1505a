// The report of a call: as many of its values as the caller's list has places.
ghost use Rattle.std.specs.Prelude.{◌≡◌, set};
ghost use Rattle.meaning.specs.Reply.{filled_with, totals_numbers, counts_of};
ghost use Rattle.lists.specs.Report.{FewSupplied, Countable};

use meaning::{Answer, Totals};

// The numbers of a scoring: the score, and how many words were supplied by a triple, a pair, a word and u.
pub fn totals_of(t: Totals) -> [i64; 5]
    requires { FewSupplied t.supplied }
    ensures { result ≡ totals_numbers t }
{
    let s = t.supplied;
    [
        t.score,
        s.triples as i64,
        s.pairs as i64,
        s.words as i64,
        s.unseen as i64,
    ]
}

// The numbers of a decode: the score, how many steps, words and states there are, and how many words were supplied by each.
pub fn numbers_of(a: Answer) -> [i64; 8]
    requires { Countable a }
    ensures { result ≡ counts_of a }
{
    let by = a.supplied;
    [
        a.score,
        a.steps as i64,
        a.words as i64,
        a.states as i64,
        by.triples as i64,
        by.pairs as i64,
        by.words as i64,
        by.unseen as i64,
    ]
}

// Puts as many of the numbers as the list has places.
pub fn fill(report: &mut [i64], numbers: &[i64])
    ensures { report.new ≡ filled_with numbers.now report.old }
{
    let n = report.len().min(numbers.len());
    report[..n].copy_from_slice(&numbers[..n]);
}

// Reports a scoring.
pub fn put_totals(report: &mut [i64], t: Totals)
    requires { FewSupplied t.supplied }
    ensures { report.new ≡ filled_with (totals_numbers t) report.old }
{
    fill(report, &totals_of(t));
}

// Reports a decode.
pub fn put_answer(report: &mut [i64], a: Answer)
    requires { Countable a }
    ensures { report.new ≡ filled_with (counts_of a) report.old }
{
    fill(report, &numbers_of(a));
}
