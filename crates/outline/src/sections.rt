// The sections of an ARPA text, and its outline.
ghost use Rattle.std.specs.Prelude.{◌≡◌, List, ◌∷◌, ℕ, ◌≤◌, ◌<◌, length, drop};
ghost use Rattle.arpa.specs.Lines.{filled_lines};
ghost use Rattle.tokens.specs.Fields.{FieldsAt, FieldsRead};
ghost use Rattle.outline.specs.Outline.{rest_is};
ghost use Rattle.outline.specs.Walk.{Proper, AdvancedAs, OutlineIs};

use crate::{counts, lines};
use tokens::scan;

// Where a walk over the sections' lines stands: the order of the section begun last, 0 before the first, how many of its lines are still to come, and
// whether `<unk>` alone was listed.
#[derive(Clone, Copy)]
pub struct Cursor {
    pub order: usize,
    pub left: usize,
    pub unknown: bool,
}

// The outline of an ARPA text: its top order, and where its sections begin.
#[derive(Clone, Copy)]
pub struct Outline {
    pub top: usize,
    pub at: usize,
}

// Where a section's lines are all read, and it is not the last: the next one begins, if its mark stands there.
fn begin_section(
    text: &[u8],
    places: &[usize],
    count: usize,
    counts: &[usize],
    cursor: Cursor,
) -> Option<Cursor>
    requires fields_read { FieldsRead text.now places.now count }
    requires proper { Proper counts.now cursor }
    requires left_value { cursor.left ≡ 0 }
    requires more { cursor.order < length counts.now }
    ensures { (fields : List (List ℕ)) (lines : List (List (List ℕ))) → FieldsAt text.now places.now count fields → AdvancedAs counts.now cursor (fields ∷ lines) lines result }
{
    let order = cursor.order;
    if !lines::is_section(text, places, count, order + 1) {
        return None;
    }
    Some(Cursor {
        order: order + 1,
        left: counts[order],
        unknown: cursor.unknown,
    })
}

// Inside a section: the line of an n-gram, if it is one and does not list `<unk>` alone a second time.
fn pass_gram(
    text: &[u8],
    places: &[usize],
    count: usize,
    top: usize,
    cursor: Cursor,
) -> Option<Cursor>
    requires fields_read { FieldsRead text.now places.now count }
    requires le_left { (1 ≤ cursor.left) × ((1 ≤ cursor.order) × (cursor.order ≤ 3)) }
    ensures { (counts : List ℕ) (fields : List (List ℕ)) (lines : List (List (List ℕ))) → top ≡ length counts → Proper counts cursor → FieldsAt text.now places.now count fields → AdvancedAs counts cursor (fields ∷ lines) lines result }
{
    let order = cursor.order;
    let left = cursor.left - 1;
    if !lines::is_gram_line(text, places, count, top, order) {
        return None;
    }
    if !lines::is_unknown(text, places, count, order) {
        return Some(Cursor {
            order,
            left,
            unknown: cursor.unknown,
        });
    }
    if cursor.unknown {
        return None;
    }
    Some(Cursor {
        order,
        left,
        unknown: true,
    })
}

// One line more, where the last section has not ended.
fn advance(
    text: &[u8],
    places: &[usize],
    count: usize,
    counts: &[usize],
    cursor: Cursor,
) -> Option<Cursor>
    requires fields_read { FieldsRead text.now places.now count }
    requires proper { Proper counts.now cursor }
    requires more { cursor.left ≡ 0 → cursor.order < length counts.now }
    ensures { (fields : List (List ℕ)) (lines : List (List (List ℕ))) → FieldsAt text.now places.now count fields → AdvancedAs counts.now cursor (fields ∷ lines) lines result }
{
    if cursor.left == 0 {
        return begin_section(text, places, count, counts, cursor);
    }
    pass_gram(text, places, count, counts.len(), cursor)
}

// Whether the sections stand from `from` on, with these counts, and list `<unk>` alone at most once.
fn are_sections(text: &[u8], from: usize, places: &mut [usize], counts: &[usize]) -> bool
    requires from_in_bounds { from ≤ length text.now }
    requires in_bounds { 10 ≤ length places.old }
    requires counts_len_bound { length counts.now ≤ 3 }
    ensures { result ≡ rest_is counts.now 0 0 (filled_lines (drop from text.now)) 0 }
{
    let mut cursor = Cursor {
        order: 0,
        left: 0,
        unknown: false,
    };
    let mut at = from;
    // No iterator: each turn also fills `places`, and goes on behind the line that it read.
    while let Some(line) = scan::read_line(text, at, places) {
        if cursor.left == 0 && counts.len() <= cursor.order {
            return lines::is_mark(text, places, line.count, b"\\end\\");
        }
        let Some(next) = advance(text, places, line.count, counts, cursor) else {
            return false;
        };
        cursor = next;
        at = line.next;
    }
    false
}

// Question 23: the outline of a text, where it is an ARPA text.
pub fn read_outline(text: &[u8]) -> Option<Outline>
    ensures { OutlineIs text.now result }
{
    let mut places = [0usize; 10];
    let mut counts = [0usize; counts::HIGHEST];
    let data = counts::find_data(text, &mut places);
    let counted = counts::read_counts(text, data, &mut places, &mut counts);
    let top = counted.top;
    let at = counted.at;
    if top == 0 {
        return None;
    }
    if !are_sections(text, at, &mut places, &counts[..top]) {
        return None;
    }
    Some(Outline { top, at })
}
