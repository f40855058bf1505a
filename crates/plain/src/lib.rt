// Decoding on plain numbers, with all that a search needs in local arrays: about 759,000 bytes of stack.
#![tactic(auto)]

ghost use Rattle.std.specs.Prelude.{◌≤◌, length};
ghost use Rattle.clearing.specs.Swept.{Swept};
ghost use Rattle.decoder.specs.Decodes.{PlainDecodes};
ghost use Rattle.opening.specs.Opening.{Open};
ghost use Rattle.options.specs.Options.{options_size};

use answer::PlainReply;
use book::entries::INDEX_SIZE;
use decoder::decode;
use decoder::decode::Lent;
use extending::Beam;
use opening::Counts;

// What a direction of an open book is decoded with: the book's counts, the width, a step list of `room` places, and a store that is all
// zero where `swept` says so.
#[derive(Clone, Copy)]
pub struct Turn {
    pub counts: Counts,
    pub width: i64,
    pub room: usize,
    pub swept: bool,
}

// Questions 9 to 15 and the answer, for a book that is open.
pub fn decode_open(
    book: &[i32],
    direction: &[u16],
    index: &[u16],
    options: &mut [u16],
    turn: Turn,
    words: &mut [u16],
    store: &mut [i64],
) -> PlainReply
    requires fact { Open book.now index.now turn.counts }
    requires options_size_in_bounds { options_size ≤ length options.old }
    requires swept { Swept turn.swept store.old }
    ensures { PlainDecodes book.now direction.now turn.width turn.room words.old words.new store.old store.new result }
{
    match opening::begin(book, index, turn.counts, direction) {
        Ok(setup) => {
            let beam = Beam {
                setup,
                width: turn.width,
            };
            let lent = Lent {
                room: turn.room,
                swept: turn.swept,
            };
            decode::decode_with(book, direction, index, options, beam, lent, words, store)
        }
        Err(refusal) => decode::refused(refusal),
    }
}

// Questions 2 to 6, 21 and 20, then 9 to 15 and the answer, for a step list of `room` places and a store that may hold anything.
pub fn decode_plain(
    book: &[i32],
    direction: &[u16],
    width: i64,
    room: usize,
    words: &mut [u16],
    store: &mut [i64],
) -> PlainReply
    ensures { PlainDecodes book.now direction.now width room words.old words.new store.old store.new result }
{
    let mut index = [0u16; INDEX_SIZE];
    let mut options = [0u16; options::OPTIONS_SIZE];
    let counts = match opening::open_book(book, &mut index) {
        Ok(counts) => counts,
        Err(refusal) => return decode::refused(refusal),
    };
    let turn = Turn {
        counts,
        width,
        room,
        swept: false,
    };
    decode_open(book, direction, &index, &mut options, turn, words, store)
}
