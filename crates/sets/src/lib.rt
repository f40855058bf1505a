// The sets of states, one after the other: those that cover no word, one word, and so on, and each state within the width is extended.
#![tactic(auto)]

ghost use Rattle.std.specs.Prelude.{◌≡◌, ◌+◌, ◌<◌, pos, length, replicate};
ghost use Rattle.search_theory.specs.Search.{upto};
ghost use Rattle.meaning.specs.Book.{book_of};
ghost use Rattle.meaning.specs.Direction.{word_count};
ghost use Rattle.meaning.specs.Search.{search};
ghost use Rattle.states.specs.Ghost.{Levelling, Levelled, Starting, Reached, top_of};

use extending::Source;
use extending::task::Task;
use meaning::State;
use states::Full;
use store::Place;

// A place whose state may be extended: its number, the set that is extended, and the best score of that set.
#[derive(Clone, Copy)]
pub struct Candidate {
    pub at: usize,
    pub set: usize,
    pub top: i64,
}

// The place is passed over where it covers another number of words than the set or is out of the width, and else extended.
fn visit(
    store: &mut [i64],
    count: usize,
    task: &Task<'_>,
    candidate: Candidate,
) -> Result<usize, Full>
    requires set_lt_n { (candidate.set < task.now.beam.setup.n) × (candidate.at < length (upto (search (book_of task.now.book.now) task.now.direction.now task.now.beam.width) candidate.set)) }
    requires top_value { candidate.top ≡ top_of (book_of task.now.book.now) task.now.direction.now task.now.beam.width candidate.set }
    requires levelling { Levelling (book_of task.now.book.now) task.now.direction.now task.now.beam.width candidate.set candidate.at store.old count }
    ensures { Levelled (book_of task.now.book.now) task.now.direction.now task.now.beam.width candidate.set (candidate.at + 1) store.new result }
{
    let x = store::places::place_at(store, candidate.at);
    if x.size != candidate.set {
        return Ok(count);
    }
    if !states::best::is_within(candidate.top, x.state, task.beam.width) {
        return Ok(count);
    }
    let source = Source {
        place: x,
        at: candidate.at,
    };
    extending::extend_all(store, count, task, source)
}

// The set i is extended: the states that cover i words, in the order in which they were entered.
fn level(store: &mut [i64], count: usize, task: &Task<'_>, i: usize) -> Result<usize, Full>
    requires i_lt_n { i < task.now.beam.setup.n }
    requires starting { Starting (book_of task.now.book.now) task.now.direction.now task.now.beam.width i store.old count }
    ensures { Reached (book_of task.now.book.now) task.now.direction.now task.now.beam.width (i + 1) store.new result }
{
    let top = states::best::top_score(store, count, i);
    let mut c = count;
    for j in 0..count {
        let candidate = Candidate { at: j, set: i, top };
        c = visit(store, c, task, candidate)?;
    }
    Ok(c)
}

// All sets but the last are extended, from the start state on. The store holds zeros only at first.
pub fn search(store: &mut [i64], task: &Task<'_>) -> Result<usize, Full>
    requires store_value { store.old ≡ replicate (length store.old) (pos 0) }
    ensures { Reached (book_of task.now.book.now) task.now.direction.now task.now.beam.width (word_count task.now.direction.now) store.new result }
{
    if store.len() < 8 {
        return Err(Full);
    }
    store::index::append_place(
        store,
        0,
        Place {
            state: State::start(),
            size: 0,
            parent: 0,
            step: 0,
        },
    );
    let mut c = 1;
    for i in 0..task.beam.setup.n {
        c = level(store, c, task, i)?;
    }
    Ok(c)
}
