// The round sheet (ticket 8): a round's directions decoded together, and the sheet of their answers put in lent bytes.
#![tactic(auto)]

ghost use Rattle.std.specs.Prelude.{◌≡◌, ◌≤◌, length};
ghost use Rattle.meaning.specs.Reply.{reply_of, written_if};
ghost use Rattle.meaning.specs.Round.{directions_of, RoundLists};
ghost use Rattle.meaning.specs.Sheet.{round_sheet, sheet_refusal, sheet_reply};
ghost use Rattle.lists.specs.Steps.{as_numbers, lent_numbers};
ghost use Rattle.sheet.specs.Rows.{Fits};
ghost use Rattle.round_sheet.specs.Told.{Tellable, Told};

use meaning::Refusal;

// How many bytes are enough for every sheet.
pub const SHEET_SIZE: usize = 2048;

// The sheet of a round that was decoded: how many bytes it is, or the round's refusal.
pub fn tell(
    reply: Result<(), Refusal>,
    count: usize,
    answers: &[i64],
    sheet: &mut [u8],
) -> Result<usize, Refusal>
    requires { Tellable reply answers.now count sheet.old }
    ensures { Told reply answers.now count sheet.old sheet.new result }
{
    reply?;
    Ok(sheet::put_sheet(sheet, answers, count))
}

// Decodes the round as `rounds::decode_round` does, and puts its sheet at the beginning of `sheet`: how many bytes it is. A refusal changes no list.
pub fn round_sheet(
    book: &[i32],
    directions: &[u16],
    ends: &[usize],
    width: i64,
    steps: &mut [u16],
    words: &mut [u16],
    store: &mut [i64],
    answers: &mut [i64],
    sheet: &mut [u8],
) -> Result<usize, Refusal>
    ensures result_value { reply_of result ≡ sheet_reply book.now directions.now ends.now width (lent_numbers steps.old words.old store.old) (length answers.old) (length sheet.old) }
    ensures round_lists { RoundLists as_numbers (sheet_refusal book.now directions.now ends.now (lent_numbers steps.old words.old store.old) (length answers.old) (length sheet.old)) book.now (directions_of directions.now ends.now) width steps.old steps.new words.old words.new store.old store.new answers.old answers.new }
    ensures sheet_after { sheet.new ≡ written_if (sheet_refusal book.now directions.now ends.now (lent_numbers steps.old words.old store.old) (length answers.old) (length sheet.old)) (round_sheet book.now directions.now ends.now width (length store.old)) sheet.old }
{
    let enough = SHEET_SIZE <= sheet.len();
    let reply = rounds::decode_if(
        book, directions, ends, width, steps, words, store, answers, enough,
    );
    tell(reply, ends.len(), answers, sheet)
}
