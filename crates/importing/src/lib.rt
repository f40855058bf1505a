// An ARPA text imported to a loaded book (ticket 6). A list is lent, and the caller names the numbers in use: they are the book, and what stands behind them is
// the list's unused tail.
#![tactic(auto)]

ghost use Rattle.std.specs.Prelude.{◌≡◌, ◌≤◌, length, take};
ghost use Rattle.meaning.specs.Book.{grams_most};
ghost use Rattle.meaning.specs.Reply.{reply_of};
ghost use Rattle.arpa.specs.Import.{import_arpa, import_arpa_list};
ghost use Rattle.outline.specs.Walk.{Outlines};
ghost use Rattle.longer.specs.Longer.{Opened, LongerIs};
ghost use Rattle.importing.specs.Import.{with_model};

use arpa_model::walk::Cursor;
use arpa_model::write;
use longer::Longer;
use meaning::Refusal;
use outline::sections;
use outline::sections::Outline;
use spelling::WordList;

// Puts u, where `<unk>` sets it, and the count of the T lines into the B record.
fn put_model(book: &mut [i32], longer: Longer)
    requires in_bounds { 6 ≤ length book.old }
    requires triples_le_grams_most { longer.triples ≤ grams_most }
    ensures { book.new ≡ with_model longer book.old }
{
    let unseen = longer.unseen.unwrap_or(lines::number_at(book, 3));
    book[3] = unseen;
    book[lines::B_IN_TEXT + 1] = longer.triples as i32;
}

// Question 7 of the longer book, and where it passes its lines behind the numbers in use.
fn write_longer(
    text: &[u8],
    cursor: Cursor,
    words: &WordList,
    book: &mut [i32],
    used: usize,
    longer: Longer,
) -> Result<usize, Refusal>
    requires opened { Opened text.now cursor }
    requires used_in_bounds { used ≤ length book.old }
    requires longer_is { LongerIs text.now words.now.list.now (take used book.old) longer }
    ensures result_value { reply_of result ≡ import_arpa text.now words.now.list.now book.old used }
    ensures book_after { book.new ≡ import_arpa_list text.now words.now.list.now book.old used }
{
    let size = longer.size;
    if book.len() - used < size {
        return Err(Refusal::ListTooShort);
    }
    write::write_model(text, cursor, words, &mut book[used..]);
    put_model(book, longer);
    Ok(used + size)
}

// All questions behind 23, and the lines.
fn import_model(
    text: &[u8],
    cursor: Cursor,
    words: &WordList,
    book: &mut [i32],
    used: usize,
) -> Result<usize, Refusal>
    requires opened { Opened text.now cursor }
    requires used_in_bounds { used ≤ length book.old }
    ensures result_value { reply_of result ≡ import_arpa text.now words.now.list.now book.old used }
    ensures book_after { book.new ≡ import_arpa_list text.now words.now.list.now book.old used }
{
    let longer = longer::judge(text, cursor, words, &book[..used])?;
    write_longer(text, cursor, words, book, used, longer)
}

// The same: the word list is indexed.
fn import_outlined(
    text: &[u8],
    outline: Outline,
    list: &[u8],
    book: &mut [i32],
    used: usize,
) -> Result<usize, Refusal>
    requires outlines { Outlines text.now outline }
    requires used_in_bounds { used ≤ length book.old }
    ensures result_value { reply_of result ≡ import_arpa text.now list.now book.old used }
    ensures book_after { book.new ≡ import_arpa_list text.now list.now book.old used }
{
    let mut index = [0u16; spelling::INDEX_SIZE];
    let mut starts = [0usize; spelling::STARTS_SIZE];
    let words = WordList::new(list, &mut index, &mut starts);
    let cursor = Cursor {
        top: outline.top,
        at: outline.at,
        order: 0,
    };
    import_model(text, cursor, &words, book, used)
}

// Imports an ARPA text, through a word list, to the loaded book that the first `used` numbers of the list are: its n-grams become U, D and T lines behind
// the last line, and `<unk>` sets u; how many numbers are then in use. A refusal changes nothing.
pub fn import_arpa(
    text: &[u8],
    list: &[u8],
    book: &mut [i32],
    used: usize,
) -> Result<usize, Refusal>
    ensures result_value { reply_of result ≡ import_arpa text.now list.now book.old used }
    ensures book_after { book.new ≡ import_arpa_list text.now list.now book.old used }
{
    if book.len() < used {
        return Err(Refusal::ListTooShort);
    }
    match sections::read_outline(text) {
        Some(outline) => import_outlined(text, outline, list, book, used),
        None => Err(Refusal::ArpaText),
    }
}
