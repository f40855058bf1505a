// What stands before the sections: `\data\`, and the count lines.
ghost use Rattle.std.specs.Prelude.{◌≡◌, true, List, ℕ, ◌≤◌, length, drop};
ghost use Rattle.meaning.specs.Numerals.{digits_value};
ghost use Rattle.arpa.specs.Values.{are_digits};
ghost use Rattle.arpa.specs.File.{is_count, is_count_line};
ghost use Rattle.tokens.specs.Fields.{FieldsAt, FieldsRead};
ghost use Rattle.outline.specs.Outline.{Saturated, CountsRead, DataFound};

use crate::lines;
use tokens::scan;

// The highest order.
pub const HIGHEST: usize = 3;

// Count lines that were read: how many, and the place behind them.
#[derive(Clone, Copy)]
pub struct Counted {
    pub top: usize,
    pub at: usize,
}

// The place behind the first line that is `\data\`; the text's end where there is none.
pub fn find_data(text: &[u8], places: &mut [usize]) -> usize
    requires { 10 ≤ length places.old }
    ensures data_found { DataFound text.now result }
    ensures places_len_unchanged { length places.new ≡ length places.old }
{
    let mut at = 0;
    // No iterator: each turn also fills `places`, and goes on behind the line that it read.
    while let Some(line) = scan::read_line(text, at, places) {
        at = line.next;
        if lines::is_mark(text, places, line.count, b"\\data\\") {
            return at;
        }
    }
    text.len()
}

// Whether a field is `N=M`, for N the order and M in digits.
fn is_count(field: &[u8], order: usize) -> bool
    requires { order ≤ 3 }
    ensures { result ≡ is_count order field.now }
{
    field
        .strip_prefix(&[b'0' + order as u8, b'='])
        .is_some_and(thousandths::are_digits)
}

// Whether a line is `ngram N=M`, for N the order.
fn is_count_line(text: &[u8], places: &[usize], count: usize, order: usize) -> bool
    requires fields_read { FieldsRead text.now places.now count }
    requires order_bound { order ≤ 3 }
    ensures { (fields : List (List ℕ)) → FieldsAt text.now places.now count fields → result ≡ is_count_line order fields }
{
    count == 2
        && scan::field(text, places, 0) == b"ngram".as_slice()
        && is_count(scan::field(text, places, 1), order)
}

// The M of a field `N=M`.
fn count_in(field: &[u8]) -> usize
    requires field_value { are_digits (drop 2 field.now) ≡ true }
    requires in_bounds { 2 ≤ length field.now }
    ensures { Saturated (digits_value 0 (drop 2 field.now)) result }
{
    thousandths::count_of(&field[2..])
}

// Reads the count lines that stand from `at` on for orders 1, 2 and 3, and notes their counts.
pub fn read_counts(text: &[u8], at: usize, places: &mut [usize], counts: &mut [usize]) -> Counted
    requires at_in_bounds { at ≤ length text.now }
    requires in_bounds { 10 ≤ length places.old }
    requires counts_len { length counts.old ≡ 3 }
    ensures counts_read { CountsRead text.now at counts.new result }
    ensures places_len_unchanged { length places.new ≡ length places.old }
{
    let mut from = at;
    for n in 0..HIGHEST {
        let Some(line) = scan::read_line(text, from, places) else {
            return Counted { top: n, at: from };
        };
        if !is_count_line(text, places, line.count, n + 1) {
            return Counted { top: n, at: from };
        }
        counts[n] = count_in(scan::field(text, places, 1));
        from = line.next;
    }
    Counted {
        top: HIGHEST,
        at: from,
    }
}
