// A state of the store is extended by every step that may follow it.
#![tactic(auto)]

ghost use Rattle.std.specs.Prelude.{◌≡◌, ◌+◌, ◌-◌, ◌^◌, ◌<◌};
ghost use Rattle.meaning.specs.Book.{Entry, book_of};
ghost use Rattle.derivation.specs.Model.{Model, PhraseOf, Phrased};
ghost use Rattle.options.specs.Options.{start_at};
ghost use Rattle.store.specs.Store.{Indexed, Storable};
ghost use Rattle.states.specs.Order.{Leading};
ghost use Rattle.states.specs.Ghost.{Chosen, Growing, Grew, Levelled};
ghost use Rattle.extending.specs.Extend.{Grows, next_place, CanPlace, SpotOf, TurnOf};

use crate::task::Task;
use derivation::{Phrase, Setup};
use states::{Added, Full};
use store::Place;

pub mod task;

// What is searched: the numbers of the book and the direction, and the beam's width (-1: pruning off).
#[derive(Clone, Copy)]
pub struct Beam {
    pub setup: derivation::Setup,
    pub width: i64,
}

// The state that is extended: what its place holds, and the place's number.
#[derive(Clone, Copy)]
pub struct Source {
    pub place: store::Place,
    pub at: usize,
}

// Where it is extended: at the position `first`, from which on `run` positions are free.
#[derive(Clone, Copy)]
pub struct Spot {
    pub source: Source,
    pub first: usize,
    pub run: usize,
}

// By what it is extended there: by that entry, which is the option with that number. (`option` is for the contracts.)
#[derive(Clone, Copy)]
pub struct Turn {
    pub spot: Spot,
    pub option: usize,
    pub entry: usize,
}

// The place that the entry p leads to in this turn.
fn next_place(book: &[i32], index: &[u16], t: Setup, p: Phrase, turn: Turn) -> Place
    requires model { Model index.now t }
    requires phrased { Phrased book.now p }
    requires can_place { CanPlace t p turn }
    ensures { (e : Entry) → PhraseOf book.now e p → result ≡ next_place index.now t p e turn }
{
    let spot = turn.spot;
    let x = spot.source.place;
    let last = spot.first + p.long - 1;
    let row = derivation::model::row_of(book, index, t, p, x.state.word1, x.state.word2);
    let state = derivation::step::next_state(t, p, row, spot.first, last, x.state);
    Place {
        state,
        size: x.size + p.long,
        parent: spot.source.at,
        step: ways::steps::code(spot.first, last, turn.entry),
    }
}

// The state y is added to the count states of the store: how many there are then, or the store is too small.
fn grow(store: &mut [i64], count: usize, y: Place) -> Result<usize, Full>
    requires indexed { Indexed store.old count }
    requires storable { Storable y }
    requires leading { Leading store.old count y }
    ensures { Grows store.old store.new count y result }
{
    match states::adding::add_place(store, count, y)? {
        Added::Replaced | Added::Kept => Ok(count),
        Added::Appended => Ok(count + 1),
    }
}

// The state is extended by the option of this turn, if the free positions are enough for it. How many states there are then, or
// the store is too small.
fn extend_option(
    store: &mut [i64],
    count: usize,
    task: &Task<'_>,
    turn: Turn,
) -> Result<usize, Full>
    requires turn_of { TurnOf task.now turn }
    requires growing { Growing (book_of task.now.book.now) task.now.direction.now task.now.beam.width turn.spot.source.place.size turn.spot.source.at turn.option store.old count }
    ensures { Grew (book_of task.now.book.now) task.now.direction.now task.now.beam.width turn.spot.source.place.size turn.spot.source.at (turn.option + 1) store.new result }
{
    let t = task.beam.setup;
    let p = derivation::places::phrase_at(task.book, task.index, t.phrases, turn.entry);
    if turn.spot.run < p.long {
        return Ok(count);
    }
    let y = next_place(task.book, task.index, t, p, turn);
    grow(store, count, y)
}

// It is extended by the options of a position: by none where that is covered, or out of reach.
fn extend_at(store: &mut [i64], count: usize, task: &Task<'_>, spot: Spot) -> Result<usize, Full>
    requires spot_of { SpotOf task.now spot }
    requires growing { Growing (book_of task.now.book.now) task.now.direction.now task.now.beam.width spot.source.place.size spot.source.at (start_at task.now.options.now (spot.first - 1)) store.old count }
    ensures { Grew (book_of task.now.book.now) task.now.direction.now task.now.beam.width spot.source.place.size spot.source.at (start_at task.now.options.now spot.first) store.new result }
{
    if spot.run == 0 {
        return Ok(count);
    }
    let r = usize::from(spot.source.place.state.r);
    if task.beam.setup.limit < derivation::step::jump(r, spot.first) {
        return Ok(count);
    }
    let from = options::start_at(task.options, spot.first - 1);
    let to = options::start_at(task.options, spot.first);
    let mut c = count;
    for option in from..to {
        let entry = usize::from(options::option_at(task.options, option));
        let turn = Turn {
            spot,
            option,
            entry,
        };
        c = extend_option(store, c, task, turn)?;
    }
    Ok(c)
}

// It is extended by every option: those of the first position, then those of the second, and so on.
pub fn extend_all(
    store: &mut [i64],
    count: usize,
    task: &Task<'_>,
    source: Source,
) -> Result<usize, Full>
    requires chosen { Chosen (book_of task.now.book.now) task.now.direction.now task.now.beam.width source.place.size source.at source.place × (source.at < 2 ^ 63) }
    requires growing { Growing (book_of task.now.book.now) task.now.direction.now task.now.beam.width source.place.size source.at (0) store.old count }
    ensures { Levelled (book_of task.now.book.now) task.now.direction.now task.now.beam.width source.place.size (source.at + 1) store.new result }
{
    let runs = positions::free_runs(source.place.state.covered, task.beam.setup.n);
    let mut c = count;
    for i in 0..task.beam.setup.n {
        let spot = Spot {
            source,
            first: i + 1,
            run: usize::from(runs.run[i]),
        };
        c = extend_at(store, c, task, spot)?;
    }
    Ok(c)
}
