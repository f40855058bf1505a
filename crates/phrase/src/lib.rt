// The calls of document 01 that take a caller's list of step records.
#![tactic(auto)]

ghost use Rattle.std.specs.Prelude.{◌≡◌, length};
ghost use Rattle.meaning.specs.Reply.{reply_of, written_if, reply_of, score_proposal, Decodes};
ghost use Rattle.meaning.specs.Round.{as_records, decode_round, round_refusal, directions_of, RoundLists};
ghost use Rattle.meaning.specs.Sheet.{round_sheet, sheet_refusal, sheet_reply};
ghost use Rattle.round_rows.specs.Rows.{lent_records};

use meaning::{Answer, Refusal, Step, Totals};

// "Scoring a proposed list", of any length: questions 2 to 6, 9, 10 and 16 to 19, and where none refuses the score of the steps and the four counts of
// ticket 3. The first 33 records decide: of 32 words none is left for the 33rd.
pub fn score(book: &[i32], direction: &[u16], steps: &[Step]) -> Result<Totals, Refusal>
    ensures { reply_of result ≡ score_proposal book.now direction.now steps.now }
{
    let plain = records::gather(steps);
    scoring::score_plain(book, direction, plain)
}

// "Decoding, after 2 to 6, 9 and 10": 11 to 15, and the answer where none refuses. Width -1 is pruning off; a store of 8 numbers
// for each state entered is enough. Whatever stands in the lists is taken; after 13, 14, 15 and success the store is all zero.
// Document 01's form: a lent slice of step structs; the core writes plain numbers first, and `put_all` stores the records.
pub fn decode(
    book: &[i32],
    direction: &[u16],
    width: i64,
    steps: &mut [Step],
    words: &mut [u16],
    store: &mut [i64],
) -> Result<Answer, Refusal>
    ensures { Decodes book.now direction.now width steps.old steps.new words.old words.new store.old store.new result }
{
    let answer = plain::decode_plain(book, direction, width, steps.len(), words, store);
    records::put_all(steps, answer.plain);
    answer.reply
}

// Ticket 7: a round's directions together. Direction k has the 32 step records, the 256 words and the 9 answers that follow those of direction k - 1; a
// refused round changes no list.
pub fn decode_round(
    book: &[i32],
    directions: &[u16],
    ends: &[usize],
    width: i64,
    steps: &mut [Step],
    words: &mut [u16],
    store: &mut [i64],
    answers: &mut [i64],
) -> Result<(), Refusal>
    ensures result_value { reply_of result ≡ decode_round book.now directions.now ends.now (lent_records (length steps.old) words.old store.old) (length answers.old) }
    ensures round_lists { RoundLists as_records (round_refusal book.now directions.now ends.now (lent_records (length steps.old) words.old store.old) (length answers.old)) book.now (directions_of directions.now ends.now) width steps.old steps.new words.old words.new store.old store.new answers.old answers.new }
{
    let answer = round_rows::decode_rows(
        book,
        directions,
        ends,
        width,
        steps.len(),
        words,
        store,
        answers,
    );
    records::rows::put_over(steps, answer.rows);
    answer.reply
}

// Ticket 8: a round decoded as `decode_round` does, and its sheet put at the beginning of `sheet`: how many bytes it is. A refusal changes no list.
pub fn round_sheet(
    book: &[i32],
    directions: &[u16],
    ends: &[usize],
    width: i64,
    steps: &mut [Step],
    words: &mut [u16],
    store: &mut [i64],
    answers: &mut [i64],
    sheet: &mut [u8],
) -> Result<usize, Refusal>
    ensures result_value { reply_of result ≡ sheet_reply book.now directions.now ends.now width (lent_records (length steps.old) words.old store.old) (length answers.old) (length sheet.old) }
    ensures round_lists { RoundLists as_records (sheet_refusal book.now directions.now ends.now (lent_records (length steps.old) words.old store.old) (length answers.old) (length sheet.old)) book.now (directions_of directions.now ends.now) width steps.old steps.new words.old words.new store.old store.new answers.old answers.new }
    ensures sheet_after { sheet.new ≡ written_if (sheet_refusal book.now directions.now ends.now (lent_records (length steps.old) words.old store.old) (length answers.old) (length sheet.old)) (round_sheet book.now directions.now ends.now width (length store.old)) sheet.old }
{
    let answer = round_rows::sheet_rows(
        book,
        directions,
        ends,
        width,
        steps.len(),
        words,
        store,
        answers,
        sheet,
    );
    records::rows::put_over(steps, answer.rows);
    answer.reply
}
