// The text of a book or a direction, a field at a time: a line's letter or a number, with the mark that ends it.
// Two walks over a text read its fields (crate `text`). The functions that most fields go through are put into both, by `inline(always)`: as calls they take
// more time (docs/SPEED.md).
#![tactic(auto)]

ghost use Rattle.std.specs.Prelude.{◌≡◌, Bool, true, ◌&&◌, ◌-◌, ◌≤◌, ◌<◌, length};
ghost use Rattle.meaning.specs.Numerals.{is_digit};
ghost use Rattle.fields.specs.Scan.{Line, Field, Minus, Digits, more_digits, signed, letter_kind};
ghost use Rattle.fields.specs.Fields.{start, NoMore, DigitsRead, FieldRead};

// Digits that were read: the value that they make, and the place behind them.
#[derive(Clone, Copy)]
struct Numeral {
    value: u32,
    end: usize,
}

// A field that was read, a line's letter or a number: its number, and the place behind the mark that ends it. It is its line's last
// where the mark is the byte 10.
#[derive(Clone, Copy)]
pub struct Piece {
    pub number: i32,
    pub end: usize,
    pub last: bool,
}

// A digit 0 to 9.
pub fn is_digit(b: u8) -> bool
    ensures { result ≡ is_digit b }
{
    b.is_ascii_digit()
}

// Whether a digit may follow the digits that make v: none follows a 0, nor seven digits. So no count of digits is kept.
fn more_digits(v: u32) -> bool
    ensures { result ≡ more_digits v }
{
    (1..=999_999).contains(&v)
}

// Whether the byte is a digit that may follow the digits that make v.
fn goes_on(v: u32, b: u8) -> bool
    ensures { result ≡ is_digit b && more_digits v }
{
    is_digit(b) && more_digits(v)
}

// Reads on behind the digits that make v, as far as a digit may follow.
#[inline(always)]
fn read_digits(text: &[u8], at: usize, v: u32) -> Numeral
    requires v_bound { v ≤ 9_999_999 }
    requires at_in_bounds { at ≤ length text.now }
    ensures { DigitsRead text.now at v result }
{
    let mut value = v;
    let mut end = at;
    for &b in &text[at..] {
        if !goes_on(value, b) {
            return Numeral { value, end };
        }
        value = value * 10 + u32::from(b - b'0');
        end += 1;
    }
    Numeral { value, end }
}

// The number of digits that make v, after a minus or not.
pub fn signed(minus: bool, v: u32) -> i32
    requires { v ≤ 9999999 }
    ensures { result ≡ signed minus v }
{
    let x = v as i32;
    if minus { -x } else { x }
}

// A comma or the byte 10 has to end a number, at `at` behind all of its digits.
#[inline(always)]
fn end_number(text: &[u8], minus: bool, v: u32, at: usize) -> Option<Piece>
    requires v_bound { v ≤ 9_999_999 }
    requires no_more { NoMore text.now at v }
    ensures { (book : Bool) → FieldRead book (Digits minus v) text.now at result }
{
    let last = match text.get(at)? {
        b',' => false,
        b'\n' => true,
        _ => return None,
    };
    Some(Piece {
        number: signed(minus, v),
        end: at + 1,
        last,
    })
}

// The rest of a number, behind the digit b that it begins with.
#[inline(always)]
fn rest_of_number(text: &[u8], minus: bool, b: u8, at: usize) -> Option<Piece>
    requires b_value { is_digit b ≡ true }
    requires at_in_bounds { at ≤ length text.now }
    ensures { (book : Bool) → FieldRead book (Digits minus (b - 48)) text.now at result }
{
    let digits = read_digits(text, at, u32::from(b - b'0'));
    end_number(text, minus, digits.value, digits.end)
}

// The rest of a number, behind its minus: a digit 1 to 9 follows.
fn read_negative(text: &[u8], at: usize) -> Option<Piece>
    ensures { (book : Bool) → FieldRead book Minus text.now at result }
{
    match *text.get(at)? {
        b @ b'1'..=b'9' => rest_of_number(text, true, b, at + 1),
        _ => None,
    }
}

// A number, which begins with a minus or a digit.
#[inline(always)]
fn read_number(text: &[u8], at: usize) -> Option<Piece>
    requires { at < length text.now }
    ensures { (book : Bool) → FieldRead book Field text.now at result }
{
    match text[at] {
        b'-' => read_negative(text, at + 1),
        b @ b'0'..=b'9' => rest_of_number(text, false, b, at + 1),
        _ => None,
    }
}

// The kind of the line that a letter begins: B, P, T, U, D are 1 to 5.
#[tactic(auto, unfolding(meaning::specs::Book::kind_of_byte))]
fn kind_of(b: u8) -> Option<i32>
    ensures { result ≡ letter_kind b }
{
    match b {
        b'B' => Some(1),
        b'P' => Some(2),
        b'T' => Some(3),
        b'U' => Some(4),
        b'D' => Some(5),
        _ => None,
    }
}

// A line's letter, in a book, with the comma that follows it; a direction has no second line.
#[inline(always)]
fn read_letter(book: bool, text: &[u8], at: usize) -> Option<Piece>
    requires { at < length text.now }
    ensures { FieldRead book Line text.now at result }
{
    if !book {
        return None;
    }
    let number = kind_of(text[at])?;
    match text.get(at + 1)? {
        b',' => Some(Piece {
            number,
            end: at + 2,
            last: false,
        }),
        _ => None,
    }
}

// A field, at a line's beginning or behind a comma, where one stands there.
#[inline(always)]
pub fn read_field(book: bool, line: bool, text: &[u8], at: usize) -> Option<Piece>
    requires { at < length text.now }
    ensures { FieldRead book (start line) text.now at result }
{
    if line {
        read_letter(book, text, at)
    } else {
        read_number(text, at)
    }
}
