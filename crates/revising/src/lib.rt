// Adding an entry to a loaded book, and removing one (ticket 5). A list is lent, and the caller names the numbers in use: they are the book, and what
// stands behind them is the list's unused tail. Each call goes through the book once to check it, and once more to the end of what it moves.
#![tactic(auto)]

ghost use Rattle.std.specs.Prelude.{◌≡◌, ◌&&◌, ◌≤◌, pos, length, set};
ghost use Rattle.meaning.specs.Book.{in_list, phrases_most, is_p, is_whole};
ghost use Rattle.meaning.specs.Reply.{reply, reply_of, reply_of, written_over};
ghost use Rattle.meaning.specs.Revision.{in_use_refusal, line_refusal, add_refusal, added, add_entry, add_entry_list, remove_entry, remove_entry_list};

use book::{loaded, target};
use loading::check;
use meaning::Refusal;

// Question 7 of the numbers in use, before all else; then the questions of the book.
fn check_in_use(list: &[i32], used: usize) -> Result<(), Refusal>
    ensures { reply_of result ≡ reply (in_use_refusal list.now used) tt }
{
    if list.len() < used {
        return Err(Refusal::ListTooShort);
    }
    check::check_book(&list[..used])
}

// Question 2 of a line that is to be added: it is a whole P line.
fn is_entry(line: &[i32]) -> bool
    ensures { result ≡ is_p line.now && is_whole in_list line.now }
{
    lines::is_kind(line, 2) && lines::is_whole(line, lines::B_IN_LIST)
}

// What the line answers once the book has passed: 2, 4, 5 and 7. How many P lines there are already is stored in the B record.
fn check_line(list: &[i32], used: usize, line: &[i32]) -> Result<(), Refusal>
    requires { in_use_refusal list.now used ≡ 0 }
    ensures { reply_of result ≡ reply (line_refusal list.now used line.now) tt }
{
    if !is_entry(line) {
        return Err(Refusal::LineFields);
    }
    if !lines::ranges_p(line) {
        return Err(Refusal::NumberRange);
    }
    if lines::PHRASES_MOST <= lines::natural_at(list, lines::B_IN_TEXT) {
        return Err(Refusal::LineCount);
    }
    if list.len() - used < line.len() {
        return Err(Refusal::ListTooShort);
    }
    Ok(())
}

// All questions of an addition.
fn check_addition(list: &[i32], used: usize, line: &[i32]) -> Result<(), Refusal>
    ensures { reply_of result ≡ reply (add_refusal list.now used line.now) tt }
{
    check_in_use(list, used)?;
    check_line(list, used, line)
}

// Stores how many P lines there are, in the B record.
fn put_count(list: &mut [i32], count: usize)
    requires { (6 ≤ length list.old) × (count ≤ phrases_most) }
    ensures { list.new ≡ set list.old 4 (pos count) }
{
    list[lines::B_IN_TEXT] = count as i32;
}

// Puts the line behind the numbers in use, and counts it.
fn put_entry(list: &mut [i32], used: usize, line: &[i32])
    requires { add_refusal list.old used line.now ≡ 0 }
    ensures { list.new ≡ written_over (added list.old used line.now) list.old }
{
    let count = lines::natural_at(list, lines::B_IN_TEXT);
    moves::put_front(&mut list[used..], line);
    put_count(list, count + 1);
}

// Adds a P line, given as loaded numbers, after the last line; how many numbers are then in use. A refusal changes nothing.
pub fn add_entry(list: &mut [i32], used: usize, line: &[i32]) -> Result<usize, Refusal>
    ensures result_value { reply_of result ≡ add_entry list.old used line.now }
    ensures list_after { list.new ≡ add_entry_list list.old used line.now }
{
    check_addition(list, used, line)?;
    put_entry(list, used, line);
    Ok(used + line.len())
}

// Question 22, of a book that passed; then the entry is taken out and no longer counted.
fn take_entry(list: &mut [i32], used: usize, entry: usize) -> Result<usize, Refusal>
    requires { in_use_refusal list.old used ≡ 0 }
    ensures result_value { reply_of result ≡ remove_entry list.old used entry }
    ensures list_after { list.new ≡ remove_entry_list list.old used entry }
{
    let Some(at) = target::find_entry(&list[..used], entry) else {
        return Err(Refusal::AbsentEntry);
    };
    let size = loaded::size_at(&list[..used], at);
    let count = lines::natural_at(list, lines::B_IN_TEXT);
    moves::take_out(&mut list[at..used], size);
    put_count(list, count - 1);
    Ok(used - size)
}

// Removes entry `entry`, counted from 1: later lines move down, and zeros stand where they leave places; how many numbers are then in use. A refusal
// changes nothing.
pub fn remove_entry(list: &mut [i32], used: usize, entry: usize) -> Result<usize, Refusal>
    ensures result_value { reply_of result ≡ remove_entry list.old used entry }
    ensures list_after { list.new ≡ remove_entry_list list.old used entry }
{
    check_in_use(list, used)?;
    take_entry(list, used, entry)
}
