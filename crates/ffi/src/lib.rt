// The calls for C and Rust (include/phrase.h), which `ffi_c` exports. A lent list comes as a pointer and a length; whatever is handed in is answered.
#![tactic(auto)]

ghost use Rattle.std.specs.Prelude.{◌≡◌, pos, length};
ghost use Rattle.meaning.specs.Book.{book_refusal, target_part};
ghost use Rattle.meaning.specs.Reply.{reply_of, read_book, read_book_list, read_direction, read_direction_list, written_if, filled_with, score_proposal};
ghost use Rattle.meaning.specs.Revision.{add_entry, add_entry_list, remove_entry, remove_entry_list};
ghost use Rattle.arpa.specs.Import.{import_arpa, import_arpa_list};
ghost use Rattle.ffi.specs.Bounds.{Counted};
ghost use Rattle.meaning.specs.Round.{decode_round, round_refusal, directions_of, RoundLists};
ghost use Rattle.meaning.specs.Sheet.{sheet_refusal, round_sheet, sheet_reply};
ghost use Rattle.lists.specs.Steps.{records_in, lent_numbers, as_numbers};
ghost use Rattle.ffi.specs.Calls.{count_or_refusal, zero_or_refusal, score_report, DecodesNumbers};

use meaning::Refusal;

// How many numbers were read, or are in use, or minus the refusal.
fn count_or_refusal(reply: Result<usize, Refusal>) -> i64
    requires { Counted reply }
    ensures { result ≡ count_or_refusal (reply_of reply) }
{
    match reply {
        Ok(n) => n as i64,
        Err(refusal) => -(meaning::number_of(refusal) as i64),
    }
}

// 0, or the refusal.
fn zero_or_refusal<T>(reply: &Result<T, Refusal>) -> i32
    ensures { result ≡ zero_or_refusal (reply_of reply.now) }
{
    match reply {
        Ok(_) => 0,
        Err(refusal) => meaning::number_of(*refusal) as i32,
    }
}

// Reads a book's text: how many numbers were written, or minus the refusal.
pub fn phrase_read_book(text: &[u8], book: &mut [i32]) -> i64
    ensures value { result ≡ count_or_refusal (read_book text.now (length book.old)) }
    ensures book_after { book.new ≡ read_book_list text.now book.old }
{
    let reply = reading::read_book(text, book);
    count_or_refusal(reply)
}

// Reads a direction's text: how many words were written, or minus the refusal.
pub fn phrase_read_direction(text: &[u8], direction: &mut [u16]) -> i64
    ensures value { result ≡ count_or_refusal (read_direction text.now (length direction.old)) }
    ensures direction_after { direction.new ≡ read_direction_list text.now direction.old }
{
    let reply = direction::read_direction(text, direction);
    count_or_refusal(reply)
}

// Asks questions 2 to 6, 21 and 20 of a loaded book: 0, or the refusal.
pub fn phrase_check_book(book: &[i32]) -> i32
    ensures { result ≡ pos (book_refusal book.now) }
{
    zero_or_refusal(&loading::check::check_book(book))
}

// Adds a P line, given as loaded numbers, to a loaded book: how many numbers are then in use, or minus the refusal.
pub fn phrase_add_entry(book: &mut [i32], used: usize, line: &[i32]) -> i64
    ensures value { result ≡ count_or_refusal (add_entry book.old used line.now) }
    ensures book_after { book.new ≡ add_entry_list book.old used line.now }
{
    let reply = revising::add_entry(book, used, line);
    count_or_refusal(reply)
}

// Removes an entry from a loaded book: how many numbers are then in use, or minus the refusal.
pub fn phrase_remove_entry(book: &mut [i32], used: usize, entry: usize) -> i64
    ensures value { result ≡ count_or_refusal (remove_entry book.old used entry) }
    ensures book_after { book.new ≡ remove_entry_list book.old used entry }
{
    let reply = revising::remove_entry(book, used, entry);
    count_or_refusal(reply)
}

// Imports an ARPA text, through a word list, to a loaded book: how many numbers are then in use, or minus the refusal.
pub fn phrase_import_arpa(arpa: &[u8], spelling: &[u8], book: &mut [i32], used: usize) -> i64
    ensures value { result ≡ count_or_refusal (import_arpa arpa.now spelling.now book.old used) }
    ensures book_after { book.new ≡ import_arpa_list arpa.now spelling.now book.old used }
{
    let reply = importing::import_arpa(arpa, spelling, book, used);
    count_or_refusal(reply)
}

// Where an entry's target words start in the loaded book; the list's length where there are none.
pub fn phrase_target_start(book: &[i32], entry: usize) -> i64
    ensures { result ≡ pos (target_part book.now entry).start }
{
    let part = loading::check::target_part(book, entry);
    part.start as i64
}

// How many target words an entry has; 0 where it is none of the book.
pub fn phrase_target_count(book: &[i32], entry: usize) -> i64
    ensures { result ≡ pos (target_part book.now entry).size }
{
    let part = loading::check::target_part(book, entry);
    part.size as i64
}

// Scores a proposed list of steps: 0, or the refusal; the report is the score, and how many target words were supplied by triples, pairs, words and u.
pub fn phrase_score(book: &[i32], direction: &[u16], steps: &[u16], report: &mut [i64]) -> i32
    ensures value { result ≡ zero_or_refusal (score_proposal book.now direction.now (records_in steps.now)) }
    ensures report_after { report.new ≡ filled_with (score_report (score_proposal book.now direction.now (records_in steps.now))) report.old }
{
    let plain = lists::steps::gather(steps);
    let reply = scoring::score_plain(book, direction, plain);
    if let Ok(totals) = reply {
        lists::report::put_totals(report, totals);
    }
    zero_or_refusal(&reply)
}

// Finds the best derivation: 0, or the refusal; the report is the score, how many steps, words and states there are, and how many target words were
// supplied by triples, pairs, words and u.
pub fn phrase_decode(
    book: &[i32],
    direction: &[u16],
    width: i64,
    steps: &mut [u16],
    words: &mut [u16],
    store: &mut [i64],
    report: &mut [i64],
) -> i32
    ensures { DecodesNumbers book.now direction.now width steps.old steps.new words.old words.new store.old store.new report.old report.new result }
{
    let room = steps.len() / 3;
    let told = plain::decode_plain(book, direction, width, room, words, store);
    let plain = told.plain;
    lists::steps::put_all(steps, plain);
    let reply = told.reply;
    if let Ok(a) = reply {
        lists::report::put_answer(report, a);
    }
    zero_or_refusal(&reply)
}

// Decodes a round's directions, one after the other: 0, or the refusal of the whole round; nine numbers of `answers` to a direction are its answer, 0 or the
// refusal, and what a decode reports.
pub fn phrase_decode_round(
    book: &[i32],
    directions: &[u16],
    ends: &[usize],
    width: i64,
    steps: &mut [u16],
    words: &mut [u16],
    store: &mut [i64],
    answers: &mut [i64],
) -> i32
    ensures value { result ≡ zero_or_refusal (decode_round book.now directions.now ends.now (lent_numbers steps.old words.old store.old) (length answers.old)) }
    ensures round_lists { RoundLists as_numbers (round_refusal book.now directions.now ends.now (lent_numbers steps.old words.old store.old) (length answers.old)) book.now (directions_of directions.now ends.now) width steps.old steps.new words.old words.new store.old store.new answers.old answers.new }
{
    let reply = rounds::decode_round(book, directions, ends, width, steps, words, store, answers);
    zero_or_refusal(&reply)
}

// Decodes a round's directions as `phrase_decode_round` does, and puts the sheet of their answers at the beginning of `sheet`: its length, or minus the
// refusal. A refusal changes no list.
pub fn phrase_round_sheet(
    book: &[i32],
    directions: &[u16],
    ends: &[usize],
    width: i64,
    steps: &mut [u16],
    words: &mut [u16],
    store: &mut [i64],
    answers: &mut [i64],
    sheet: &mut [u8],
) -> i64
    ensures value { result ≡ count_or_refusal (sheet_reply book.now directions.now ends.now width (lent_numbers steps.old words.old store.old) (length answers.old) (length sheet.old)) }
    ensures round_lists { RoundLists as_numbers (sheet_refusal book.now directions.now ends.now (lent_numbers steps.old words.old store.old) (length answers.old) (length sheet.old)) book.now (directions_of directions.now ends.now) width steps.old steps.new words.old words.new store.old store.new answers.old answers.new }
    ensures sheet_after { sheet.new ≡ written_if (sheet_refusal book.now directions.now ends.now (lent_numbers steps.old words.old store.old) (length answers.old) (length sheet.old)) (round_sheet book.now directions.now ends.now width (length store.old)) sheet.old }
{
    let reply = round_sheet::round_sheet(
        book, directions, ends, width, steps, words, store, answers, sheet,
    );
    count_or_refusal(reply)
}
