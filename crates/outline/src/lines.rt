// What a line of an ARPA text is, by its fields: `count` is how many there are, and `places` says where the first five stand.
ghost use Rattle.std.specs.Prelude.{◌≡◌, true, List, ℕ, ◌+◌, ◌≤◌, length};
ghost use Rattle.arpa.specs.Values.{is_value};
ghost use Rattle.arpa.specs.File.{grams_mark, is_mark, is_gram_line, ngram_of, is_unknown};
ghost use Rattle.tokens.specs.Scan.{field_at, FieldNoted};
ghost use Rattle.tokens.specs.Fields.{FieldsAt, FieldsRead};

use tokens::scan;

// Whether the line is the mark, alone.
pub fn is_mark(text: &[u8], places: &[usize], count: usize, mark: &[u8]) -> bool
    requires { FieldsRead text.now places.now count }
    ensures { (fields : List (List ℕ)) → FieldsAt text.now places.now count fields → result ≡ is_mark mark.now fields }
{
    count == 1 && scan::field(text, places, 0) == mark
}

// Whether it is `\N-grams:`, for N the order.
pub fn is_section(text: &[u8], places: &[usize], count: usize, order: usize) -> bool
    requires fields_read { FieldsRead text.now places.now count }
    requires order_bound { order ≤ 3 }
    ensures { (fields : List (List ℕ)) → FieldsAt text.now places.now count fields → result ≡ is_mark (grams_mark order) fields }
{
    let digit = b'0' + order as u8;
    let mark = [b'\\', digit, b'-', b'g', b'r', b'a', b'm', b's', b':'];
    is_mark(text, places, count, &mark)
}

// Whether field k is a value.
fn is_value_at(text: &[u8], places: &[usize], k: usize) -> bool
    requires { FieldNoted text.now places.now k }
    ensures { result ≡ is_value (field_at text.now places.now k) }
{
    thousandths::is_value(scan::field(text, places, k))
}

// Whether it is the line of an n-gram of the order: a value, its words and, below the top order, at most one more value.
pub fn is_gram_line(text: &[u8], places: &[usize], count: usize, top: usize, order: usize) -> bool
    requires fields_read { FieldsRead text.now places.now count }
    requires order_bound { order ≤ 3 }
    ensures { (fields : List (List ℕ)) → FieldsAt text.now places.now count fields → result ≡ is_gram_line top order fields }
{
    if count <= order || !is_value_at(text, places, 0) {
        return false;
    }
    match count - order {
        1 => true,
        2 => order < top && is_value_at(text, places, order + 1),
        _ => false,
    }
}

// Whether the n-gram's line lists `<unk>` alone.
pub fn is_unknown(text: &[u8], places: &[usize], count: usize, order: usize) -> bool
    requires fields_read { FieldsRead text.now places.now count }
    requires order_bound { order + 1 ≤ count }
    ensures { (fields : List (List ℕ)) → FieldsAt text.now places.now count fields → result ≡ is_unknown (ngram_of order fields) }
{
    order == 1 && scan::field(text, places, 1) == b"<unk>".as_slice()
}
