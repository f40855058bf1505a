// A text read a line at a time: "Byte 10 or the text's end ends a line; fields are parted by spaces or tabs; blank lines .. are
// passed over."
ghost use Rattle.std.specs.Prelude.{◌≡◌, ℕ, Bool, ◌+◌, ◌≤◌, length, drop};
ghost use Rattle.arpa.specs.Lines.{is_blank};
ghost use Rattle.tokens.specs.Scan.{run_length, is_space, note_at, field_at, FieldNoted, NextRead};

// A line that was read: how many fields it has, and a place behind them.
#[derive(Clone, Copy)]
pub struct Line {
    pub count: usize,
    pub next: usize,
}

// A space or a tab.
fn is_blank(b: u8) -> bool
    ensures { result ≡ is_blank b }
{
    matches!(b, b' ' | b'\t')
}

// A byte that belongs to no field: a blank, or the byte 10.
fn is_space(b: u8) -> bool
    ensures { result ≡ is_space b }
{
    is_blank(b) || b == b'\n'
}

// The place behind the bytes from `at` on that pass the test.
pub fn run_end<F: Fn(u8) -> bool>(text: &[u8], at: usize, passes: F) -> usize
    requires callable { F.IsAlwaysCallable passes }
    requires at_in_bounds { at ≤ length text.now }
    ensures { (test : ℕ → Bool) → ((b : ℕ) (r : Bool) → F.post passes b r → r ≡ test b) → result ≡ at + run_length test (drop at text.now) }
{
    // No iterator and no range: both take more time here (docs/SPEED.md).
    let mut end = at;
    while end < text.len() {
        if !passes(text[end]) {
            return end;
        }
        end += 1;
    }
    end
}

// Notes where field k begins and ends, if it is one of the first five.
fn note(places: &mut [usize], k: usize, from: usize, to: usize)
    requires { 10 ≤ length places.old }
    ensures { places.new ≡ note_at places.old k from to }
{
    if k < 5 {
        places[2 * k] = from;
        places[2 * k + 1] = to;
    }
}

// Reads the next line from `at` on that is not blank, where there is one, and notes where its first five fields begin and end: field k
// at places[2 * k] and places[2 * k + 1]. What stands before `at` does not matter.
pub fn read_line(text: &[u8], at: usize, places: &mut [usize]) -> Option<Line>
    requires at_in_bounds { at ≤ length text.now }
    requires in_bounds { 10 ≤ length places.old }
    ensures line_read { NextRead text.now at places.new result }
    ensures places_len_unchanged { length places.new ≡ length places.old }
{
    let mut count = 0;
    let mut next = run_end(text, at, is_space);
    // No range: fields differ in length, and the next begins behind the blanks that follow.
    while next < text.len() && text[next] != b'\n' {
        let end = run_end(text, next, |b| !is_space(b));
        note(places, count, next, end);
        count += 1;
        next = run_end(text, end, is_blank);
    }
    if count == 0 {
        return None;
    }
    Some(Line { count, next })
}

// Field k of the line whose places were noted, as that part of the text itself.
pub fn field<'a>(text: &'a [u8], places: &[usize], k: usize) -> &'a [u8]
    requires { FieldNoted text.now places.now k }
    ensures { result.now ≡ field_at text.now places.now k }
{
    let from = places[2 * k];
    let to = places[2 * k + 1];
    &text[from..to]
}
