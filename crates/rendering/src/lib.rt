// Document 01's rendering program, from the bytes that it reads to those that it prints.
#![tactic(auto)]

ghost use Rattle.std.specs.Prelude.{◌≡◌, ◌&&◌, ◌≤◌, leb, length};
ghost use Rattle.meaning.specs.Direction.{read_direction_refusal};
ghost use Rattle.meaning.specs.Reply.{written_over};
ghost use Rattle.meaning.specs.Render.{printed_decode, rendered};
ghost use Rattle.decimals.specs.Put.{Put};
ghost use Rattle.rendering.specs.Parts.{Fits, FitsDecoded, printed_done, printed_decoded, decode_off, printed_read};

use meaning::{Answer, Refusal};

// Whether neither input has more bytes than the program takes.
fn are_short(book: &[u8], direction: &[u8]) -> bool
    ensures { result ≡ leb (length book.now) 8_192 && leb (length direction.now) 512 }
{
    book.len() <= 8192 && direction.len() <= 512
}

// Puts an answer, its steps as plain numbers and its words at the beginning of `words`.
fn put_done(out: &mut [u8], answer: Answer, numbers: &[u16], words: &[u16]) -> usize
    requires in_bounds { 4_096 ≤ length out.old }
    requires fits { Fits answer }
    requires in_bounds_2 { 96 ≤ length numbers.now }
    requires in_bounds_3 { 256 ≤ length words.now }
    ensures { Put (printed_done answer numbers.now words.now) 0 result out.old out.new }
{
    let count = answer.words;
    printing::put_answer(out, 0, answer, numbers, &words[..count])
}

// Puts what a decode replied.
fn put_decoded(
    out: &mut [u8],
    decoded: Result<Answer, Refusal>,
    numbers: &[u16],
    words: &[u16],
) -> usize
    requires in_bounds { 4_096 ≤ length out.old }
    requires fits_decoded { FitsDecoded decoded }
    requires in_bounds_2 { 96 ≤ length numbers.now }
    requires in_bounds_3 { 256 ≤ length words.now }
    ensures { Put (printed_decoded decoded numbers.now words.now) 0 result out.old out.new }
{
    match decoded {
        Ok(answer) => put_done(out, answer, numbers, words),
        Err(refusal) => printing::put_refusal(out, 0, refusal),
    }
}

// Decodes with pruning off and a store of 512 states, and puts the reply.
fn put_decode(out: &mut [u8], book: &[i32], direction: &[u16]) -> usize
    requires { 4_096 ≤ length out.old }
    ensures { Put (printed_decode book.now direction.now (decode_off book.now direction.now)) 0 result out.old out.new }
{
    let mut words = [0u16; 256];
    let mut store = [0i64; 4096];
    let told = plain::decode_plain(book, direction, -1, 32, &mut words, &mut store);
    let numbers = told.plain.numbers;
    let decoded = told.reply;
    put_decoded(out, decoded, &numbers, &words)
}

// Reads the direction's text once the book is read, decodes, and puts the reply.
fn put_direction(out: &mut [u8], book: &[i32], text: &[u8]) -> usize
    requires { 4_096 ≤ length out.old }
    ensures { Put (printed_read (read_direction_refusal text.now 32) book.now text.now) 0 result out.old out.new }
{
    let mut words = [0u16; 32];
    match direction::read_direction(text, &mut words) {
        Ok(n) => put_decode(out, book, &words[..n]),
        Err(refusal) => printing::put_refusal(out, 0, refusal),
    }
}

// What the program prints for the bytes of `book.txt` and of standard input: puts it at the beginning of `out`, and says how many
// bytes it is; the places beyond are as before. Of longer inputs the first 8,193 and 513 bytes are enough.
pub fn render(book: &[u8], direction: &[u8], out: &mut [u8; 4096]) -> usize
    ensures value { result ≡ length (rendered book.now direction.now) }
    ensures out_after { out.new ≡ written_over (rendered book.now direction.now) out.old }
{
    if !are_short(book, direction) {
        return printing::put_refusal(out, 0, Refusal::ListTooShort);
    }
    let mut loaded = [0i32; 8192];
    match reading::read_book(book, &mut loaded) {
        Ok(n) => put_direction(out, &loaded[..n], direction),
        Err(refusal) => printing::put_refusal(out, 0, refusal),
    }
}
