// The program `round` (ticket 8), from the bytes that it reads to those that it prints.
#![tactic(auto)]

ghost use Rattle.std.specs.Prelude.{◌≡◌, true, ◌&&◌, map, leb, length};
ghost use Rattle.meaning.specs.Questions.{◌unless◌, ◌orelse◌, within};
ghost use Rattle.meaning.specs.Book.{book_refusal};
ghost use Rattle.meaning.specs.Direction.{direction_of};
ghost use Rattle.meaning.specs.Reply.{written_over};
ghost use Rattle.meaning.specs.Round.{directions_of};
ghost use Rattle.meaning.specs.Sheet.{direction_texts, texts_refusal, sheet_refusal, printed_round};
ghost use Rattle.decimals.specs.Put.{Put};
ghost use Rattle.round_program.specs.Parts.{program_lent, printed_sheet};

use meaning::Refusal;

// Whether neither input has more bytes than the program takes.
fn are_short(book: &[u8], text: &[u8]) -> bool
    ensures { result ≡ leb (length book.now) 8_192 && leb (length text.now) 32_768 }
{
    book.len() <= 8192 && text.len() <= 32768
}

// Whether a round can have as many directions.
fn is_round(n: usize) -> bool
    ensures { result ≡ within 1 64 n }
{
    (1..=64).contains(&n)
}

// Decodes the round with pruning off and a store of 512 states, and puts its sheet or its refusal.
fn put_round(out: &mut [u8], book: &[i32], directions: &[u16], ends: &[usize]) -> usize
    requires { length out.old ≡ 2_048 }
    ensures { Put (printed_sheet (sheet_refusal book.now directions.now ends.now program_lent 576 2_048) book.now (directions_of directions.now ends.now)) 0 result out.old out.new }
{
    let mut steps = [0u16; 6144];
    let mut words = [0u16; 16384];
    let mut store = [0i64; 4096];
    let mut answers = [0i64; 576];
    let told = round_sheet::round_sheet(
        book,
        directions,
        ends,
        -1,
        &mut steps,
        &mut words,
        &mut store,
        &mut answers,
        out,
    );
    match told {
        Ok(n) => n,
        Err(refusal) => printing::put_refusal(out, 0, refusal),
    }
}

// Reads the directions of a text that has 1 to 64 lines, decodes them, and puts the sheet or the first refusal of a line.
fn put_directions(out: &mut [u8], book: &[i32], text: &[u8]) -> usize
    requires out_len { length out.old ≡ 2_048 }
    requires book_value { book_refusal book.now ≡ 0 }
    requires text_value { within 1 64 (length (direction_texts text.now)) ≡ true }
    ensures { Put (printed_sheet (texts_refusal (direction_texts text.now)) book.now (map direction_of (direction_texts text.now))) 0 result out.old out.new }
{
    let mut directions = [0u16; 2048];
    let mut ends = [0usize; 64];
    match round_lines::read_lines(text, &mut directions, &mut ends) {
        Ok(n) => put_round(out, book, &directions, &ends[..n]),
        Err(refusal) => printing::put_refusal(out, 0, refusal),
    }
}

// The questions of a text once the book is read, and what is put.
fn put_text(out: &mut [u8], book: &[i32], text: &[u8]) -> usize
    requires out_len { length out.old ≡ 2_048 }
    requires book_value { book_refusal book.now ≡ 0 }
    ensures { Put (printed_sheet (26 unless within 1 64 (length (direction_texts text.now)) orelse texts_refusal (direction_texts text.now)) book.now (map direction_of (direction_texts text.now))) 0 result out.old out.new }
{
    let n = round_lines::count_lines(text);
    if !is_round(n) {
        return printing::put_refusal(out, 0, Refusal::RoundEnds);
    }
    put_directions(out, book, text)
}

// What the program prints for the bytes of `book.txt` and of standard input: puts it at the beginning of `out`, and says how many
// bytes it is; the places beyond are as before. Of longer inputs the first 8,193 and 32,769 bytes are enough.
pub fn print_round(book: &[u8], text: &[u8], out: &mut [u8; 2048]) -> usize
    ensures value { result ≡ length (printed_round book.now text.now) }
    ensures out_after { out.new ≡ written_over (printed_round book.now text.now) out.old }
{
    if !are_short(book, text) {
        return printing::put_refusal(out, 0, Refusal::ListTooShort);
    }
    let mut loaded = [0i32; 8192];
    match reading::read_book(book, &mut loaded) {
        Ok(n) => put_text(out, &loaded[..n], text),
        Err(refusal) => printing::put_refusal(out, 0, refusal),
    }
}
