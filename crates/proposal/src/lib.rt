// A proposed list of steps on plain numbers, (first, last, entry) for each: questions 16 to 19, and the score.
#![tactic(auto)]

ghost use Rattle.std.specs.Prelude.{◌≡◌, ◌+◌, ◌*◌, ◌≤◌, ◌<◌, length};
ghost use Rattle.meaning.specs.Book.{book_of};
ghost use Rattle.meaning.specs.Direction.{word_count};
ghost use Rattle.meaning.specs.Derivation.{fits, score_of};
ghost use Rattle.meaning.specs.State.{start};
ghost use Rattle.meaning.specs.Reply.{reply, reply_of, steps_refusal, totals_of};
ghost use Rattle.book.specs.Entries.{EntriesAt};
ghost use Rattle.derivation.specs.Prepared.{Prepared};
ghost use Rattle.records.specs.Plain.{steps_of};
ghost use Rattle.proposal.specs.Proposal.{step_of, steps_in, summed_reply, Bounded, AskedOf};

use derivation::{Setup, model, places, step};
use meaning::{Refusal, State, Totals};
use records::Plain;

// Question 16: the entry is in the book, and its source words are the direction's words first to last.
fn is_fitting(
    book: &[i32],
    index: &[u16],
    t: Setup,
    direction: &[u16],
    first: usize,
    last: usize,
    entry: usize,
) -> bool
    requires { EntriesAt book.now index.now t.phrases }
    ensures { result ≡ fits (book_of book.now) direction.now (step_of first last entry) }
{
    if entry < 1 || t.phrases < entry {
        return false;
    }
    let p = places::phrase_at(book, index, t.phrases, entry);
    options::fits_at(book, p, direction, first, last)
}

// 16, 17 and 18 of one step from the state s on: the state that it leads to, or the question that refuses it.
pub fn ask_step(
    book: &[i32],
    index: &[u16],
    t: Setup,
    direction: &[u16],
    s: State,
    first: u16,
    last: u16,
    entry: u16,
) -> Result<State, Refusal>
    requires prepared { Prepared book.now direction.now index.now t }
    requires bounded { Bounded direction.now s }
    ensures { AskedOf (book_of book.now) direction.now s (step_of first last entry) result }
{
    let first = first as usize;
    let last = last as usize;
    let entry = entry as usize;
    if !is_fitting(book, index, t, direction, first, last, entry) {
        return Err(Refusal::DoesNotFit);
    }
    let runs = positions::free_runs(s.covered, t.n);
    if !runs.is_free(first, last) {
        return Err(Refusal::CoveredTwice);
    }
    if t.limit < step::jump(s.r as usize, first) {
        return Err(Refusal::JumpTooLong);
    }
    let p = places::phrase_at(book, index, t.phrases, entry);
    let row = model::row_of(book, index, t, p, s.word1, s.word2);
    Ok(step::next_state(t, p, row, first, last, s))
}

// Questions 16 to 19 of the first `count` steps, in their order: their score, or the question that refuses.
fn sum_steps(
    book: &[i32],
    index: &[u16],
    t: Setup,
    direction: &[u16],
    steps: &[u16],
    count: usize,
) -> Result<i64, Refusal>
    requires prepared { Prepared book.now direction.now index.now t }
    requires count_in_bounds { 3 * count ≤ length steps.now }
    ensures { summed_reply result ≡ reply (steps_refusal (book_of book.now) direction.now (start (word_count direction.now)) (steps_in steps.now count)) (score_of (book_of book.now) (steps_in steps.now count)) }
{
    let mut s = State::START;
    for i in 0..count {
        let first = steps[3 * i];
        let last = steps[3 * i + 1];
        let entry = steps[3 * i + 2];
        s = ask_step(book, index, t, direction, s, first, last, entry)?;
    }
    if s.covered != positions::covered_with(0, 1, t.n) {
        return Err(Refusal::Uncovered);
    }
    Ok(s.score)
}

// Questions 16 to 19 of at most 33 steps, in their order; where none refuses, their score, and who supplied the scores of their target words.
pub fn score_steps(
    book: &[i32],
    index: &[u16],
    t: Setup,
    direction: &[u16],
    plain: Plain,
) -> Result<Totals, Refusal>
    requires prepared { Prepared book.now direction.now index.now t }
    requires count_bound { plain.count ≤ 33 }
    ensures { reply_of result ≡ reply (steps_refusal (book_of book.now) direction.now (start (word_count direction.now)) (steps_of plain)) (totals_of (book_of book.now) (steps_of plain)) }
{
    let score = sum_steps(book, index, t, direction, &plain.numbers, plain.count)?;
    let supplied = judging::judge_steps(book, direction, index, t, plain);
    Ok(Totals { score, supplied })
}
