// Decimal numbers as bytes, put into a lent list from a place on. Each function answers the place after its bytes, so that the
// next can go on from there; specs/Put says what each leaves in the list.
#![tactic(auto)]

ghost use Rattle.std.specs.Prelude.{◌≡◌, ◌∷◌, [], ◌+◌, ◌≤◌, pos, length};
ghost use Rattle.meaning.specs.Render.{decimal};
ghost use Rattle.decimals.specs.Put.{Put, field};

// Puts one byte at a place.
pub fn put_byte(out: &mut [u8], at: usize, b: u8) -> usize
    requires { at + 1 ≤ length out.old }
    ensures { Put (b ∷ []) at result out.old out.new }
{
    out[at] = b;
    at + 1
}

// How many digits a number has: 1 to 20.
pub fn digit_count(n: usize) -> usize
    ensures { result ≡ length (decimal (pos n)) }
{
    match n.checked_ilog10() {
        Some(power) => power as usize + 1,
        None => 1,
    }
}

// Puts the digits of a number, the last one first.
pub fn put_natural(out: &mut [u8], at: usize, n: usize) -> usize
    requires { at + length (decimal (pos n)) ≤ length out.old }
    ensures { Put (decimal (pos n)) at result out.old out.new }
{
    let end = at + digit_count(n);
    let mut rest = n;
    for i in (at..end).rev() {
        out[i] = b'0' + (rest % 10) as u8;
        rest /= 10;
    }
    end
}

// Puts a number that may be negative, with a minus then.
pub fn put_number(out: &mut [u8], at: usize, z: i64) -> usize
    requires { at + length (decimal z) ≤ length out.old }
    ensures { Put (decimal z) at result out.old out.new }
{
    if z < 0 {
        let digits = put_byte(out, at, b'-');
        put_natural(out, digits, z.unsigned_abs() as usize)
    } else {
        put_natural(out, at, z as usize)
    }
}

// Puts a number of a line, after its comma.
pub fn put_field(out: &mut [u8], at: usize, z: i64) -> usize
    requires { at + length (field z) ≤ length out.old }
    ensures { Put (field z) at result out.old out.new }
{
    let digits = put_byte(out, at, b',');
    put_number(out, digits, z)
}
