// What the n-grams of an ARPA text add to a book, beside the survey of the book's own lines.
ghost use Rattle.std.specs.Prelude.{◌≡◌, ◌≤◌, length};
ghost use Rattle.book.specs.Survey.{lines_most, Few};
ghost use Rattle.arpa_model.specs.Walk.{Walking};
ghost use Rattle.arpa_model.specs.Model.{begun, RowFits, GramFits, with_unknown, RowNoted, NotedAs, IsRoom, Imports};

use crate::walk;
use crate::walk::Cursor;
use book::grams;
use book::survey::{Survey, Tally};
use ngram_lines::{Gram, Row};
use spelling::WordList;

// What is known of the n-grams that were met: the survey of their lines behind the book's, whether the word list has all their words (question 24), whether
// their values are in a score's range (25), and the value of `<unk>` alone, where it was among them.
#[derive(Clone, Copy)]
pub struct Model {
    pub survey: Survey,
    pub known: bool,
    pub ranged: bool,
    pub unseen: Option<i32>,
}

// None was met.
fn begin(survey: Survey) -> Model
    ensures { result ≡ begun survey }
{
    Model {
        survey,
        known: true,
        ranged: true,
        unseen: None,
    }
}

// `<unk>` alone was met.
#[tactic(auto, unfolding(crate::specs::Model::with_unknown))]
fn with_unknown(model: Model, value: i32) -> Model
    ensures { result ≡ with_unknown model value }
{
    Model {
        survey: model.survey,
        known: model.known,
        ranged: model.ranged & lines::is_score(value),
        unseen: Some(model.unseen.unwrap_or(value)),
    }
}

// An n-gram that becomes a line was met: the line stands at the row's front.
fn with_row(model: Model, made: Row, index: &mut [u16], tally: &mut Tally, row: &[i32]) -> Model
    requires few { Few model.survey tally.old lines_most }
    requires row_fits { RowFits row.now made }
    ensures { RowNoted model made row.now index.old tally.old result index.new tally.new }
{
    let size = made.size;
    let before = model.survey;
    let survey = grams::note_line(before, index, tally, &row[..size]);
    Model {
        survey,
        known: model.known & made.known,
        ranged: model.ranged & made.ranged,
        unseen: model.unseen,
    }
}

// One n-gram more.
fn with_gram(model: Model, gram: Gram, index: &mut [u16], tally: &mut Tally, row: &[i32]) -> Model
    requires few { Few model.survey tally.old lines_most }
    requires gram_fits { GramFits row.now gram }
    ensures { NotedAs model gram row.now index.old tally.old result index.new tally.new }
{
    match gram {
        Gram::PassedOver => model,
        Gram::Unknown(value) => with_unknown(model, value),
        Gram::Line(made) => with_row(model, made, index, tally, row),
    }
}

// All n-grams from the cursor on; `grams` gets the records of their lines, and the tally counts them.
pub fn note_model(
    text: &[u8],
    cursor: Cursor,
    words: &WordList,
    grams: &mut [u16],
    tally: &mut Tally,
    survey: Survey,
) -> Model
    requires walking { Walking text.now cursor }
    requires room { IsRoom text.now cursor survey tally.old }
    ensures { Imports text.now words.now.list.now cursor survey grams.old tally.old result grams.new tally.new }
{
    let mut row = [0i32; 5];
    let mut model = begin(survey);
    let mut from = cursor;
    // No iterator: each turn also fills `row`, and goes on from the cursor that it got.
    while let Some(met) = walk::next_gram(text, from, words, &mut row) {
        model = with_gram(model, met.gram, grams, tally, &row);
        from = met.cursor;
    }
    model
}
