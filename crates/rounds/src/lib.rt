// A round's directions together (ticket 7): the book is opened once, and each direction is decoded on places of its own.
#![tactic(auto)]

ghost use Rattle.std.specs.Prelude.{◌≡◌, length};
ghost use Rattle.meaning.specs.Questions.{◌unless◌, ◌orelse◌};
ghost use Rattle.meaning.specs.Reply.{reply, reply_of};
ghost use Rattle.meaning.specs.Round.{decode_round, round_refusal, directions_of, RoundLists};
ghost use Rattle.lists.specs.Steps.{as_numbers, lent_numbers};

use book::entries::INDEX_SIZE;
use meaning::Refusal;
use plain::Turn;
use round_parts::ask::Room;
use round_parts::{ask, at};

// Decodes the directions that the ends mark in the list, one after the other: direction k on the 96 numbers for steps and the 256 words that follow those
// of direction k - 1, and its answer in the next nine numbers. The store is gone through once, before the first search. Where there are not bytes enough for
// the sheet of the round it is refused, last of all questions, with 7. A refused round changes no list.
pub fn decode_if(
    book: &[i32],
    directions: &[u16],
    ends: &[usize],
    width: i64,
    steps: &mut [u16],
    words: &mut [u16],
    store: &mut [i64],
    answers: &mut [i64],
    enough: bool,
) -> Result<(), Refusal>
    ensures result_value { reply_of result ≡ reply (round_refusal book.now directions.now ends.now (lent_numbers steps.old words.old store.old) (length answers.old) orelse 7 unless enough) tt }
    ensures round_lists { RoundLists as_numbers (round_refusal book.now directions.now ends.now (lent_numbers steps.old words.old store.old) (length answers.old) orelse 7 unless enough) book.now (directions_of directions.now ends.now) width steps.old steps.new words.old words.new store.old store.new answers.old answers.new }
{
    let mut index = [0u16; INDEX_SIZE];
    let mut options = [0u16; options::OPTIONS_SIZE];
    let room = Room {
        steps: steps.len() / 3,
        words: words.len(),
        answers: answers.len(),
        enough,
    };
    let counts = ask::open_round(book, &mut index, ends, directions.len(), room)?;
    let mut from = 0;
    let mut swept = false;
    for (k, end) in ends.iter().enumerate() {
        let turn = Turn {
            counts,
            width,
            room: 32,
            swept,
        };
        let told = at::decode_at(
            book,
            &directions[from..*end],
            &index,
            &mut options,
            turn,
            words,
            store,
            k,
        );
        swept = at::put_at(steps, answers, told, swept, k);
        from = *end;
    }
    Ok(())
}

// The round, where no sheet is asked for.
pub fn decode_round(
    book: &[i32],
    directions: &[u16],
    ends: &[usize],
    width: i64,
    steps: &mut [u16],
    words: &mut [u16],
    store: &mut [i64],
    answers: &mut [i64],
) -> Result<(), Refusal>
    ensures result_value { reply_of result ≡ decode_round book.now directions.now ends.now (lent_numbers steps.old words.old store.old) (length answers.old) }
    ensures round_lists { RoundLists as_numbers (round_refusal book.now directions.now ends.now (lent_numbers steps.old words.old store.old) (length answers.old)) book.now (directions_of directions.now ends.now) width steps.old steps.new words.old words.new store.old store.new answers.old answers.new }
{
    decode_if(
        book, directions, ends, width, steps, words, store, answers, true,
    )
}
