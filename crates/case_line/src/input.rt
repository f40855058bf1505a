// Standard input, a line at a time.
ghost use Rattle.std.specs.Prelude.{◌≤◌, length, IfSome};

use std::io::BufRead;

// The next byte. A read that fails counts as the end.
fn take_byte<R: BufRead>(from: &mut R) -> Option<u8> {
    let byte = match from.fill_buf() {
        Ok([first, ..]) => *first,
        _ => return None,
    };
    from.consume(1);
    Some(byte)
}

// The next line, without its byte 10, put at the beginning of `list`. None where the input ends before that byte, or `list` does not
// hold the line.
pub fn take_line<'a>(rt: &impl Input, list: &'a mut [u8]) -> Option<&'a [u8]>
    ensures { IfSome result (λ line. length line.now ≤ length list.old) }
{
    let mut from = rt.reader();
    for i in 0..list.len() {
        match take_byte(&mut from)? {
            b'\n' => return Some(&list[..i]),
            byte => list[i] = byte,
        }
    }
    None
}
