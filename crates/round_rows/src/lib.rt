// A round for a caller who lends step records: its steps on plain numbers of its own, which `records::rows::put_over` puts in their places.
#![tactic(auto)]

ghost use Rattle.std.specs.Prelude.{◌≡◌};
ghost use Rattle.lists.specs.Steps.{places_for};
ghost use Rattle.round_rows.specs.Rows.{DecodesRows, SheetsRows};

use meaning::Refusal;
use records::rows::Rows;

// The steps of a round, and the reply to it.
#[derive(Clone, Copy)]
pub struct RowsReply<T> {
    pub rows: Rows,
    pub reply: Result<T, Refusal>,
}

// How many steps so many directions can have, on `room` step records.
fn count_for(ends: usize, room: usize) -> usize
    ensures { result ≡ places_for ends room }
{
    (32 * ends.min(64)).min(room)
}

// A round, for a list of `room` step records. The numbers are zero at first, and a step's never begin with 0: where they do, no step was written.
pub fn decode_rows(
    book: &[i32],
    directions: &[u16],
    ends: &[usize],
    width: i64,
    room: usize,
    words: &mut [u16],
    store: &mut [i64],
    answers: &mut [i64],
) -> RowsReply<()>
    ensures { DecodesRows book.now directions.now ends.now width room words.old words.new store.old store.new answers.old answers.new result }
{
    let count = count_for(ends.len(), room);
    let mut numbers = [0u16; 6144];
    let reply = rounds::decode_round(
        book,
        directions,
        ends,
        width,
        &mut numbers[..3 * count],
        words,
        store,
        answers,
    );
    RowsReply {
        rows: Rows { count, numbers },
        reply,
    }
}

// A round and its sheet, as `decode_rows`.
pub fn sheet_rows(
    book: &[i32],
    directions: &[u16],
    ends: &[usize],
    width: i64,
    room: usize,
    words: &mut [u16],
    store: &mut [i64],
    answers: &mut [i64],
    sheet: &mut [u8],
) -> RowsReply<usize>
    ensures { SheetsRows book.now directions.now ends.now width room words.old words.new store.old store.new answers.old answers.new sheet.old sheet.new result }
{
    let count = count_for(ends.len(), room);
    let mut numbers = [0u16; 6144];
    let reply = round_sheet::round_sheet(
        book,
        directions,
        ends,
        width,
        &mut numbers[..3 * count],
        words,
        store,
        answers,
        sheet,
    );
    RowsReply {
        rows: Rows { count, numbers },
        reply,
    }
}
