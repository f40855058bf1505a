// Decoding on plain numbers: questions 11 to 15, the search between them, and the answer.
ghost use Rattle.std.specs.Prelude.{◌≡◌, ◌*◌, ◌/◌, ◌≤◌, ◌<◌, pos, length, replicate, ◌&&◌, leb};
ghost use Rattle.meaning.specs.Book.{book_of};
ghost use Rattle.meaning.specs.Direction.{word_count};
ghost use Rattle.meaning.specs.Search.{answer, entered};
ghost use Rattle.derivation.specs.Prepared.{Prepared};
ghost use Rattle.options.specs.Options.{options_size};
ghost use Rattle.states.specs.Ghost.{Starting};
ghost use Rattle.clearing.specs.Swept.{Swept};
ghost use Rattle.decoder.specs.Decodes.{refused_by, no_answer, Concluded, Searched, PlainDecodes};

use answer::{Best, PlainReply};
use extending::Beam;
use extending::task::Task;
use meaning::Refusal;
use states::Full;

// A refusal: no steps are written.
pub fn refused(refusal: Refusal) -> PlainReply
    ensures { result ≡ refused_by refusal }
{
    PlainReply {
        plain: records::empty(),
        reply: Err(refusal),
    }
}

// The refusal where no state covers every word: 14 with pruning off, 15 with a width.
fn no_answer(width: i64) -> Refusal
    ensures { result ≡ no_answer width }
{
    if width == -1 {
        Refusal::NoDerivation
    } else {
        Refusal::LastSetEmpty
    }
}

// The search is over: the best state of the last set is the answer, or there is none. The store is cleared.
fn conclude(store: &mut [i64], count: usize, task: &Task<'_>, words: &mut [u16]) -> PlainReply
    requires starting { Starting (book_of task.now.book.now) task.now.direction.now task.now.beam.width (word_count task.now.direction.now) store.old count }
    requires direction_in_bounds { 8 * word_count task.now.direction.now ≤ length words.old }
    ensures concluded { Concluded (answer (book_of task.now.book.now) task.now.direction.now task.now.beam.width) (book_of task.now.book.now) task.now.beam.width (length (entered (book_of task.now.book.now) task.now.direction.now task.now.beam.width)) words.old words.new result }
    ensures store_after { store.new ≡ replicate (length store.old) (pos 0) }
{
    match states::best::pick_best(store, count, task.beam.setup.n) {
        None => {
            clearing::clear_used(store, count);
            refused(no_answer(task.beam.width))
        }
        Some(k) => {
            let best = Best {
                at: k,
                states: count,
            };
            let told = answer::trace(
                store,
                best,
                task.book,
                task.direction,
                task.index,
                task.beam.setup,
                words,
            );
            clearing::clear_used(store, count);
            told
        }
    }
}

// The search from the start state on, and what it answers: 13 where the store is too small for the states entered. The store may
// hold anything at first, unless it is known to be `swept`, and is all zero afterwards.
fn search_for_best(store: &mut [i64], task: &Task<'_>, words: &mut [u16], swept: bool) -> PlainReply
    requires direction_in_bounds { 8 * word_count task.now.direction.now ≤ length words.old }
    requires swept { Swept swept store.old }
    ensures searched { Searched (book_of task.now.book.now) task.now.direction.now task.now.beam.width (length store.old / 8) words.old words.new result }
    ensures store_after { store.new ≡ replicate (length store.old) (pos 0) }
{
    clearing::sweep(store, swept);
    match sets::search(store, task) {
        Err(Full) => {
            clearing::clear(store);
            refused(Refusal::StoreTooSmall)
        }
        Ok(count) => conclude(store, count, task, words),
    }
}

// Question 12: the step list has at least n places, and the word list at least 8 × n.
fn has_room(n: usize, room: usize, words: usize) -> bool
    requires { n ≤ 32 }
    ensures { result ≡ leb n room && leb (8 * n) words }
{
    n <= room && 8 * n <= words
}

// What is lent beside the words: the caller's step list has `room` places, and the store is all zero where `swept` says so.
#[derive(Clone, Copy)]
pub struct Lent {
    pub room: usize,
    pub swept: bool,
}

// Questions 11 to 15 and the answer, where 2 to 6, 9 and 10 pass.
pub fn decode_with(
    book: &[i32],
    direction: &[u16],
    index: &[u16],
    options: &mut [u16],
    beam: Beam,
    lent: Lent,
    words: &mut [u16],
    store: &mut [i64],
) -> PlainReply
    requires prepared { Prepared book.now direction.now index.now beam.setup }
    requires options_size_in_bounds { options_size ≤ length options.old }
    requires swept { Swept lent.swept store.old }
    ensures { PlainDecodes book.now direction.now beam.width lent.room words.old words.new store.old store.new result }
{
    let t = beam.setup;
    let width = beam.width;
    if width < -1 {
        return refused(Refusal::Width);
    }
    if !has_room(t.n, lent.room, words.len()) {
        return refused(Refusal::StepsOrWordsTooShort);
    }
    options::list_options(book, index, t, direction, options);
    let task = Task {
        book,
        direction,
        index,
        options,
        beam,
    };
    search_for_best(store, &task, words, lent.swept)
}
