// The texts of books and directions: questions 1 and 8, their numbers, and a book's lines one at a time.
// A text is read a field at a time (crate `fields`), by two walks over its fields: `read_fields` over all of them, `read_row` over those of a line.
#![tactic(auto)]

ghost use Rattle.std.specs.Prelude.{◌≡◌, true, ◌≤◌, ◌<◌, IfSome, OnSome, is_some, length, set};
ghost use Rattle.meaning.specs.Book.{is_book_text};
ghost use Rattle.meaning.specs.Direction.{is_direction_text, direction_numbers};
ghost use Rattle.meaning.specs.Reply.{written_over, filled_with};
ghost use Rattle.fields.specs.Scan.{run, at_line, emit};
ghost use Rattle.fields.specs.Fields.{start};
ghost use Rattle.text.specs.Walk.{text_numbers, RowRead};

// A line of a book's text that was read: how many numbers it has, its kind among them, and the place behind its byte 10.
#[derive(Clone, Copy)]
pub struct TextLine {
    pub count: usize,
    pub end: usize,
}

// Puts a number at a place of a list, if the list has that place.
fn put(list: &mut [i32], n: usize, v: i32)
    ensures { list.new ≡ set list.old n v }
{
    if n < list.len() {
        list[n] = v;
    }
}

// Reads a text that starts at a line's beginning, or as behind a comma: writes its numbers at the beginning of a list, as many as it
// has places for, and says how many they are in all; `None` where a field is not as it should be, or no line ends the text.
fn read_fields(book: bool, first: bool, text: &[u8], list: &mut [i32]) -> Option<usize>
    ensures formed { is_some result ≡ at_line (run book (start first) text.now) }
    ensures value { IfSome result (λ n. n ≡ length (emit book (start first) text.now)) }
    ensures list_after { OnSome result (list.new ≡ filled_with (emit book (start first) text.now) list.old) }
    ensures list_len_unchanged { length list.new ≡ length list.old }
{
    let mut line = first;
    let mut n = 0;
    let mut at = 0;
    // No range: fields differ in length, and the next begins where the one that was read ends.
    while at < text.len() {
        let field = fields::read_field(book, line, text, at)?;
        put(list, n, field.number);
        n += 1;
        line = field.last;
        at = field.end;
    }
    line.then_some(n)
}

// Whether a text that starts at a line's beginning, or as behind a comma, has good fields and ends with a line.
fn is_formed(book: bool, first: bool, text: &[u8]) -> bool
    ensures { result ≡ at_line (run book (start first) text.now) }
{
    read_fields(book, first, text, &mut []).is_some()
}

// Question 1: is this a book's text?
#[tactic(auto, using(fields::proofs::Form::no_book, fields::proofs::Form::book_text))]
pub fn is_book_text(text: &[u8]) -> bool
    ensures { result ≡ is_book_text text.now }
{
    !text.is_empty() && is_formed(true, true, text)
}

// Question 8: is this a direction's text?
#[tactic(auto, using(fields::proofs::Form::direction_text))]
pub fn is_direction_text(text: &[u8]) -> bool
    ensures { result ≡ is_direction_text text.now }
{
    is_formed(false, false, text)
}

// Writes the numbers of a book's text at the beginning of a list that has room for them, and says how many they are.
#[tactic(auto, using(fields::proofs::Form::book_run, crate::proofs::Numbers::book_numbers, meaning::proofs::Filled::filled_room))]
pub fn write_numbers(text: &[u8], book: &mut [i32]) -> usize
    requires text_value { is_book_text text.now ≡ true }
    requires text_in_bounds { length (text_numbers text.now) ≤ length book.old }
    ensures value { result ≡ length (text_numbers text.now) }
    ensures book_after { book.new ≡ written_over (text_numbers text.now) book.old }
{
    read_fields(true, true, text, book).unwrap()
}

// Reads the line of a book that starts at `at`: its numbers, its kind first, as many as `row` has places for.
pub fn read_row(text: &[u8], at: usize, row: &mut [i32]) -> Option<TextLine>
    requires { at < length text.now }
    ensures read { RowRead text.now at row.old row.new result }
    ensures row_len_unchanged { length row.new ≡ length row.old }
{
    let mut line = true;
    let mut count = 0;
    let mut end = at;
    // No range: fields differ in length, and the next begins where the one that was read ends. No walk over the line's bytes before:
    // a field that is not as it should be ends the reading, however long the line is.
    while end < text.len() {
        let field = fields::read_field(true, line, text, end)?;
        put(row, count, field.number);
        count += 1;
        end = field.end;
        if field.last {
            return Some(TextLine { count, end });
        }
        line = false;
    }
    None
}

// The numbers of a direction's text: how many there are, and as many as `row` has places for.
#[tactic(auto, using(fields::proofs::Form::direction_text, crate::proofs::Numbers::direction_numbers_lem))]
pub fn read_direction_row(text: &[u8], row: &mut [i32]) -> usize
    requires { is_direction_text text.now ≡ true }
    ensures value { result ≡ length (direction_numbers text.now) }
    ensures row_after { row.new ≡ filled_with (direction_numbers text.now) row.old }
{
    read_fields(false, false, text, row).unwrap()
}
