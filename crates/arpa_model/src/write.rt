// The lines of an ARPA text's n-grams, put behind a book's last.
ghost use Rattle.std.specs.Prelude.{◌≡◌, true, ◌+◌, ◌≤◌, length, take};
ghost use Rattle.laws.specs.Lists.{concat};
ghost use Rattle.meaning.specs.Reply.{written_over};
ghost use Rattle.arpa_model.specs.Walk.{Walking, ngrams_at};
ghost use Rattle.arpa_model.specs.Model.{are_scores_in, lines_in, RowFits};
ghost use Rattle.arpa_model.specs.Write.{line_of_gram, FitsAt, PutAt};

use crate::walk;
use crate::walk::Cursor;
use ngram_lines::{Gram, Row};
use spelling::WordList;

// Puts the line that stands at the row's front over what stands in the list from `n` on; the place behind it.
fn put_line(out: &mut [i32], n: usize, made: Row, row: &[i32]) -> usize
    requires row_fits { RowFits row.now made }
    requires size_in_bounds { n + made.size ≤ length out.old }
    ensures { PutAt out.old n (take made.size row.now) out.new result }
{
    let size = made.size;
    moves::put_front(&mut out[n..], &row[..size]);
    n + size
}

// The same of an n-gram, where it becomes a line.
fn put_gram(out: &mut [i32], n: usize, gram: Gram, row: &[i32]) -> usize
    requires { FitsAt out.old n row.now gram }
    ensures { PutAt out.old n (line_of_gram row.now gram) out.new result }
{
    match gram {
        Gram::PassedOver | Gram::Unknown(_) => n,
        Gram::Line(made) => put_line(out, n, made, row),
    }
}

// The lines of all n-grams from the cursor on.
pub fn write_model(text: &[u8], cursor: Cursor, words: &WordList, out: &mut [i32])
    requires walking { Walking text.now cursor }
    requires cursor_value { are_scores_in (ngrams_at text.now cursor) ≡ true }
    requires cursor_in_bounds { length (concat (lines_in words.now.list.now (ngrams_at text.now cursor))) ≤ length out.old }
    ensures { out.new ≡ written_over (concat (lines_in words.now.list.now (ngrams_at text.now cursor))) out.old }
{
    let mut row = [0i32; 5];
    let mut n = 0;
    let mut from = cursor;
    // No iterator: each turn also fills `row`, and goes on from the cursor that it got.
    while let Some(met) = walk::next_gram(text, from, words, &mut row) {
        n = put_gram(out, n, met.gram, &row);
        from = met.cursor;
    }
}
