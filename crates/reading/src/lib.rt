// Reading a book's text: questions 1 to 7 and 20, and its numbers.
#![tactic(auto)]

ghost use Rattle.std.specs.Prelude.{◌≡◌, true, false, ◌^◌, ◌<◌, ◌≤◌, length};
ghost use Rattle.laws.specs.Lists.{all};
ghost use Rattle.meaning.specs.Questions.{number};
ghost use Rattle.meaning.specs.Book.{in_text, grams_most, is_book_text, is_whole, text_lines, loaded_of};
ghost use Rattle.meaning.specs.Reply.{reply_of, read_book, read_book_list, written_over};
ghost use Rattle.book.specs.Survey.{no_tally};
ghost use Rattle.reading.specs.Text.{TextSurveyIs, text_refusal, counted_as, Counted, CheckedAs, with_b, short_text, IsRoomFor};

use book::survey::{Survey, Tally};
use book::{grams, survey};
use loading::load;
use loading::load::Grams;
use meaning::Refusal;

// How many bytes a short text has at most, and how long the list is that has room for its n-grams: the line of one has eight bytes at least.
const SHORT_TEXT: usize = 10240;

const SHORT_INDEX: usize = ngrams::RECORDS + ngrams::RECORD_STEP * (SHORT_TEXT / 8);

// How many numbers a whole line has at most: a P line of eight source and eight target words.
const LINE_MOST: usize = 20;

// How many numbers a loaded B record has beyond those of the text's B line: the counts of the P and the T lines.
const COUNTS: usize = lines::B_IN_LIST - lines::B_IN_TEXT;

// How many numbers the loaded book of a text has, and how many P lines and T lines.
#[derive(Clone, Copy)]
struct TextCounts {
    numbers: usize,
    phrases: usize,
    triples: usize,
}

// What is known of the lines of a text that are all good and whole, and how many numbers they have with the two counts.
#[derive(Clone, Copy)]
struct TextSurvey {
    survey: Survey,
    count: usize,
}

// Surveys a text, whatever it is; `index` gets the records of its n-grams, as far as it has room, and the tally, all zero before, how
// many lines there are of each kind. It is `None` where a line is not good, or not whole, and then what the two hold afterwards is not said.
fn survey_text(text: &[u8], index: &mut [u16], tally: &mut Tally) -> Option<TextSurvey>
    requires { tally.old ≡ no_tally }
    ensures { TextSurveyIs text.now index.old index.new tally.new result }
{
    if text.is_empty() {
        return None;
    }
    let mut row = [0i32; LINE_MOST];
    let mut survey = survey::fresh();
    let mut count = COUNTS;
    let mut at = 0;
    // No range: lines differ in length, and the next begins where the one that was read ends.
    while at < text.len() {
        let line = text::read_row(text, at, &mut row)?;
        let n = line.count;
        if LINE_MOST < n {
            return None;
        }
        if !lines::is_whole(&row[..n], lines::B_IN_TEXT) {
            return None;
        }
        survey = grams::note_line(survey, index, tally, &row[..n]);
        count += n;
        at = line.end;
    }
    Some(TextSurvey { survey, count })
}

// Questions 1 and 2, of a text whose lines are not all good and whole.
fn refusal_of(text: &[u8]) -> Refusal
    requires { is_book_text text.now ≡ true → all (is_whole in_text) (text_lines text.now) ≡ false }
    ensures { text_refusal text.now ≡ number result }
{
    if text::is_book_text(text) {
        Refusal::LineFields
    } else {
        Refusal::BookText
    }
}

// The answer of questions 2 to 6 and 20, with the counts where none refuses.
fn counted(
    loaded: Result<Grams, Refusal>,
    numbers: usize,
    tally: &Tally,
) -> Result<TextCounts, Refusal>
    ensures { result ≡ counted_as loaded numbers tally.now }
{
    loaded?;
    Ok(TextCounts {
        numbers,
        phrases: tally.phrases(),
        triples: tally.triples(),
    })
}

// Questions 1 to 6 and 20, of a text, and its counts. `index` is for the records of its n-grams. A text stores no counts, so 21 is not asked.
fn check_in(text: &[u8], index: &mut [u16]) -> Result<TextCounts, Refusal>
    requires { IsRoomFor (length text.now) (length index.old) }
    ensures { CheckedAs text.now result }
{
    let mut tally = Tally::new();
    let Some(surveyed) = survey_text(text, index, &mut tally) else {
        return Err(refusal_of(text));
    };
    let loaded = load::settle_whole(surveyed.survey, true, index, &tally);
    counted(loaded, surveyed.count, &tally)
}

// The same, with a list of so many places for the records.
fn check_with<const PLACES: usize>(text: &[u8]) -> Result<TextCounts, Refusal>
    requires room { IsRoomFor (length text.now) PLACES }
    requires in_memory { PLACES < 2 ^ 62 }
    ensures { CheckedAs text.now result }
{
    let mut index = [0u16; PLACES];
    check_in(text, &mut index)
}

// The same: a shorter list serves the shorter texts. A list is cleared before it is used, and to clear the whole one takes longer than to
// read such a text.
fn check_text(text: &[u8]) -> Result<TextCounts, Refusal>
    ensures { CheckedAs text.now result }
{
    if text.len() <= SHORT_TEXT {
        check_with::<SHORT_INDEX>(text)
    } else {
        check_with::<{ ngrams::RECORDS_END }>(text)
    }
}

// Puts the B record at the front of a list that has a text's numbers from its third place on: the first four of them move down, and the counts follow.
fn put_counts(book: &mut [i32], phrases: usize, triples: usize)
    requires in_bounds { 6 ≤ length book.old }
    requires phrases_le_grams_most { (phrases ≤ grams_most) × (triples ≤ grams_most) }
    ensures { book.new ≡ with_b phrases triples book.old }
{
    let record = [
        book[2],
        book[3],
        book[4],
        book[5],
        phrases as i32,
        triples as i32,
    ];
    moves::put_front(book, &record);
}

// Writes the loaded book of a text that 1 to 6 and 20 pass at the beginning of a list that has room for it.
fn write_book(text: &[u8], counts: TextCounts, book: &mut [i32])
    requires counted { Counted text.now counts }
    requires numbers_in_bounds { counts.numbers ≤ length book.old }
    ensures { book.new ≡ written_over (loaded_of text.now) book.old }
{
    text::write_numbers(text, &mut book[COUNTS..]);
    put_counts(book, counts.phrases, counts.triples);
}

// Reads a book's text into a lent list, and says how many numbers it wrote; a refusal changes nothing.
pub fn read_book(text: &[u8], book: &mut [i32]) -> Result<usize, Refusal>
    ensures result_value { reply_of result ≡ read_book text.now (length book.old) }
    ensures book_after { book.new ≡ read_book_list text.now book.old }
{
    let counts = check_text(text)?;
    let numbers = counts.numbers;
    if book.len() < numbers {
        return Err(Refusal::ListTooShort);
    }
    write_book(text, counts, book);
    Ok(numbers)
}
