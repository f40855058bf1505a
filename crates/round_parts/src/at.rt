// Direction k of a round, counted from 0, on its own places of the caller's lists.
ghost use Rattle.std.specs.Prelude.{◌≡◌, ◌||◌, ◌+◌, ◌*◌, ◌≤◌, length};
ghost use Rattle.meaning.specs.Reply.{reply_of, written_over};
ghost use Rattle.meaning.specs.Round.{answer_numbers};
ghost use Rattle.options.specs.Options.{options_size};
ghost use Rattle.clearing.specs.Swept.{Swept};
ghost use Rattle.records.specs.Plain.{steps_of};
ghost use Rattle.lists.specs.Steps.{numbers_of};
ghost use Rattle.opening.specs.Opening.{Open};
ghost use Rattle.round_parts.specs.Told.{AllCountable, is_searched};
ghost use Rattle.round_parts.specs.Places.{places_at, put_at, DecodesAt};

use answer::PlainReply;
use plain::Turn;

// It is decoded on its 256 words.
pub fn decode_at(
    book: &[i32],
    direction: &[u16],
    index: &[u16],
    options: &mut [u16],
    turn: Turn,
    words: &mut [u16],
    store: &mut [i64],
    k: usize,
) -> PlainReply
    requires fact { Open book.now index.now turn.counts }
    requires room_value { (turn.room ≡ 32) × (options_size ≤ length options.old) }
    requires swept { Swept turn.swept store.old }
    requires k_in_bounds { 256 * k + 256 ≤ length words.old }
    ensures { DecodesAt k book.now direction.now turn.width words.old words.new store.old store.new result }
{
    plain::decode_open(
        book,
        direction,
        index,
        options,
        turn,
        &mut words[256 * k..256 * k + 256],
        store,
    )
}

// Its steps are put on its 96 numbers for steps, and its answer on its nine numbers; whether the store is all zero by now.
pub fn put_at(
    steps: &mut [u16],
    answers: &mut [i64],
    told: PlainReply,
    swept: bool,
    k: usize,
) -> bool
    requires k_in_bounds { (96 * k + 96 ≤ length steps.old) × (9 * k + 9 ≤ length answers.old) }
    requires count_bound { told.plain.count ≤ 32 }
    requires all_countable { AllCountable told.reply }
    ensures steps_after { steps.new ≡ put_at 96 k steps.old (written_over (numbers_of (steps_of told.plain)) (places_at 96 k steps.old)) }
    ensures answers_after { answers.new ≡ put_at 9 k answers.old (answer_numbers (reply_of told.reply)) }
    ensures value { result ≡ swept || is_searched (reply_of told.reply) }
{
    crate::tell::put_told(
        &mut steps[96 * k..96 * k + 96],
        &mut answers[9 * k..9 * k + 9],
        told,
        swept,
    )
}
