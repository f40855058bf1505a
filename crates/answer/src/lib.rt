// The answer: the best state's steps as plain numbers, and their target words.
#![tactic(auto)]

ghost use Rattle.std.specs.Prelude.{◌≡◌, map, ℕ, ◌*◌, ◌≤◌, ◌<◌, length, get_or, take};
ghost use Rattle.meaning.specs.Book.{book_of};
ghost use Rattle.derivation.specs.Prepared.{Prepared};
ghost use Rattle.records.specs.Plain.{steps_of};
ghost use Rattle.ways.specs.Codes.{step_of, codes};
ghost use Rattle.meaning.specs.Direction.{word_count};
ghost use Rattle.meaning.specs.State.{Hyp};
ghost use Rattle.answer.specs.Told.{Ends, Ended, Told};

use derivation::Setup;
use meaning::{Answer, Refusal};
use records::Plain;

// What a decode answers on plain numbers: the steps to write, none on a refusal, and the reply.
#[derive(Clone, Copy)]
pub struct PlainReply {
    pub plain: Plain,
    pub reply: Result<Answer, Refusal>,
}

// The steps of the first d numbers of a row, as plain numbers.
fn steps_of(way: &[usize], d: usize) -> Plain
    requires d_bound { (d ≤ 32) × (d ≤ length way.now) }
    requires by_index { (k : ℕ) → k < d → get_or way.now k 0 < codes }
    ensures { (result.count ≡ d) × (steps_of result ≡ map step_of (take d way.now)) }
{
    let mut plain = records::empty();
    for number in &way[..d] {
        plain = records::with_step(plain, ways::steps::step(*number));
    }
    plain
}

// The best state of a search: its place in the store, and how many states were entered.
#[derive(Clone, Copy)]
pub struct Best {
    pub at: usize,
    pub states: usize,
}

// The answer from the best state: its steps, their words, its score, and who supplied the scores of the words. (`direction` is for the contract.)
pub fn trace(
    store: &[i64],
    best: Best,
    book: &[i32],
    direction: &[u16],
    index: &[u16],
    t: Setup,
    words: &mut [u16],
) -> PlainReply
    requires prepared { Prepared book.now direction.now index.now t }
    requires ended { Ended (book_of book.now) direction.now store.now best.at }
    requires direction_in_bounds { 8 * word_count direction.now ≤ length words.old }
    ensures { (q : Hyp) → Ends (book_of book.now) direction.now store.now best.at q → Told (book_of book.now) q best.states words.old words.new result }
{
    let mut way = [0usize; 32];
    let d = ways::paths::path(store, best.at, &mut way);
    let plain = steps_of(&way, d);
    let many = judging::write_words(book, index, t.phrases, plain, words);
    let supplied = judging::judge_words(index, t, &words[..many]);
    let x = store::places::place_at(store, best.at);
    PlainReply {
        plain,
        reply: Ok(Answer {
            score: x.state.score,
            steps: d,
            words: many,
            states: best.states,
            supplied,
        }),
    }
}
