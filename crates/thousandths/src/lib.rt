// Values of an ARPA text: whether a field is one, and its thousandths; and counts, which are digits alone.
#![tactic(auto)]

ghost use Rattle.std.specs.Prelude.{◌≡◌, true, length, [], ◌∷◌, MatchOption};
ghost use Rattle.laws.specs.Lists.{all};
ghost use Rattle.meaning.specs.Numerals.{is_digit, split, digits_value};
ghost use Rattle.arpa.specs.Values.{point, are_digits, is_decimal, is_value, nearest, magnitude, thousandths};
ghost use Rattle.thousandths.specs.Digits.{DigitIs, CountIs};
ghost use Rattle.thousandths.specs.Rounded.{Rounded, Capped};

// One or more digits and nothing else (question 23 asks it of M in `ngram N=M` too).
pub fn are_digits(field: &[u8]) -> bool
    ensures { result ≡ are_digits field.now }
{
    !field.is_empty() && field.iter().all(u8::is_ascii_digit)
}

// Behind a count below this one there is room for any digit more.
const SURELY_FITS: usize = 1_000_000_000_000_000_000;

// The number that digits make, or the largest number of its type where it would not fit.
pub fn count_of(digits: &[u8]) -> usize
    requires { are_digits digits.now ≡ true }
    ensures { CountIs (digits_value 0 digits.now) result }
{
    digits.iter().fold(0usize, |count, b| {
        let digit = usize::from(b.saturating_sub(b'0'));
        // Nearly every digit goes this way, and takes less time.
        if count < SURELY_FITS {
            count * 10 + digit
        } else {
            count.saturating_mul(10).saturating_add(digit)
        }
    })
}

// What stands before the first point of a number, and what stands behind it where there is one.
fn parts_of(number: &[u8]) -> (&[u8], Option<&[u8]>)
    ensures { MatchOption result.1 (split point number.now ≡ result.0.now ∷ []) (λ fraction. split point number.now ≡ result.0.now ∷ split point fraction.now) }
{
    match number.iter().position(|b| *b == b'.') {
        Some(end) => (&number[..end], Some(&number[end + 1..])),
        None => (number, None),
    }
}

// Whether what stands behind a minus, or where none stands, is digits, with at most a point and digits after.
fn is_decimal(number: &[u8]) -> bool
    ensures { result ≡ is_decimal (split point number.now) }
{
    let (whole, fraction) = parts_of(number);
    are_digits(whole) && fraction.is_none_or(are_digits)
}

// Whether the field is a value: digits, with at most a minus before and a point and digits after.
pub fn is_value(field: &[u8]) -> bool
    ensures { result ≡ is_value field.now }
{
    is_decimal(field.strip_prefix(b"-").unwrap_or(field))
}

// Digit k behind the point, 0 where there is none.
fn digit_at(fraction: &[u8], k: usize) -> u32
    requires { all is_digit fraction.now ≡ true }
    ensures { DigitIs fraction.now k result }
{
    fraction.get(k).map_or(0, |d| u32::from(*d - b'0'))
}

// The thousandths that digits behind the point make, 0 to 1000: the first three, and one more where the fourth is 5 or more.
fn rounded(fraction: &[u8]) -> u32
    requires { all is_digit fraction.now ≡ true }
    ensures { result ≡ nearest (digits_value 0 fraction.now) (length fraction.now) }
{
    let first = digit_at(fraction, 0);
    let second = digit_at(fraction, 1);
    let third = digit_at(fraction, 2);
    let kept = first * 100 + second * 10 + third;
    if 5 <= digit_at(fraction, 3) {
        return kept + 1;
    }
    kept
}

// The thousandths of a number without its minus, where they are within a score's range, and else a number beyond it.
fn magnitude_of(number: &[u8]) -> u32
    requires { is_decimal (split point number.now) ≡ true }
    ensures { Capped (magnitude (split point number.now)) result }
{
    let (whole, fraction) = parts_of(number);
    let count = count_of(whole);
    if 1000 < count {
        return 1_001_000;
    }
    count as u32 * 1000 + fraction.map_or(0, rounded)
}

// The value in thousandths, where that is a score; where it is not, some number that is no score.
pub fn value_of(field: &[u8]) -> i32
    requires { is_value field.now ≡ true }
    ensures { Rounded (thousandths field.now) result }
{
    match field.strip_prefix(b"-") {
        Some(number) => fields::signed(true, magnitude_of(number)),
        None => fields::signed(false, magnitude_of(field)),
    }
}
