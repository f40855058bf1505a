// The steps that fit: every entry at every first position, and the test of one proposed step.
// They are one list of two parts: where the options of each first position begin, and then their entry numbers.
#![tactic(auto)]

ghost use Rattle.std.specs.Prelude.{◌≡◌, ◌&&◌, ◌+◌, ◌*◌, ◌^◌, ◌≤◌, ◌<◌, eqb, leb, length};
ghost use Rattle.laws.specs.Lists.{eq_list};
ghost use Rattle.meaning.specs.Book.{Entry, book_of};
ghost use Rattle.meaning.specs.Derivation.{words_from_to};
ghost use Rattle.book.specs.Entries.{EntriesAt};
ghost use Rattle.derivation.specs.Model.{PhraseOf, Phrased};
ghost use Rattle.options.specs.Options.{options_from, options_size, start_at, option_in, fitting_at, StartPut, Listed, OptionsOf};

use book::entries;
use derivation::{Phrase, Setup, model, places};

// Where the entry numbers of the options stand in the list: behind 33 starts of two numbers each; and how long the list is, with room for
// every entry at every position.
const OPTIONS_FROM: usize = 66;

pub const OPTIONS_SIZE: usize = OPTIONS_FROM + 32 * entries::ENTRIES_MOST;

// Where the options of the position i + 1 begin, counted in options; with i the number of words, how many options there are.
pub fn start_at(options: &[u16], i: usize) -> usize
    requires { (i ≤ 32) × (options_from ≤ length options.now) }
    ensures { result ≡ start_at options.now i }
{
    halves::whole_at(options, 2 * i)
}

// The entry number of the option o.
pub fn option_at(options: &[u16], o: usize) -> u16
    requires { options_from + o < length options.now }
    ensures { result ≡ option_in options.now o }
{
    options[OPTIONS_FROM + o]
}

// Notes where the options of the position i + 1 begin.
fn put_start(options: &mut [u16], i: usize, start: usize)
    requires i_bound { (i ≤ 32) × (options_from ≤ length options.old) }
    requires start_bound { start < 2 ^ 32 }
    ensures { StartPut options.old options.new i start }
{
    halves::put_whole(options, 2 * i, start);
}

// The entry's source words are the direction's words first to last, no more and no fewer.
pub fn fits_at(book: &[i32], p: Phrase, direction: &[u16], first: usize, last: usize) -> bool
    requires { Phrased book.now p }
    ensures { (e : Entry) → PhraseOf book.now e p → result ≡ leb 1 first && leb first last && leb last (length direction.now) && eq_list eqb e.source (words_from_to first last direction.now) }
{
    if first < 1 || last < first || direction.len() < last || last + 1 - first != p.long {
        return false;
    }
    for j in 0..p.long {
        if model::word_of(book[p.source + j]) != direction[first - 1 + j] {
            return false;
        }
    }
    true
}

// The entries that fit at the position `first`, in order, listed behind `from` options; how many options there are then.
pub fn list_at(
    book: &[i32],
    index: &[u16],
    t: Setup,
    direction: &[u16],
    first: usize,
    options: &mut [u16],
    from: usize,
) -> usize
    requires entries_at { EntriesAt book.now index.now t.phrases }
    requires le_first { (1 ≤ first) × (first ≤ 32) }
    requires phrases_in_bounds { options_from + (from + t.phrases) ≤ length options.old }
    ensures { Listed options.old options.new from result (fitting_at (book_of book.now) direction.now first t.phrases) }
{
    let mut count = from;
    'entries: for k in 0..t.phrases {
        let p = places::phrase_at(book, index, t.phrases, k + 1);
        if direction.len() < first - 1 + p.long {
            continue 'entries;
        }
        'words: for j in 0..p.long {
            if model::word_of(book[p.source + j]) != direction[first - 1 + j] {
                continue 'entries;
            }
        }
        options[OPTIONS_FROM + count] = (k + 1) as u16;
        count += 1;
    }
    count
}

// Every step that fits, by first position and then by entry, and where the options of each first position begin.
pub fn list_options(book: &[i32], index: &[u16], t: Setup, direction: &[u16], options: &mut [u16])
    requires entries_at { EntriesAt book.now index.now t.phrases }
    requires direction_len_bound { length direction.now ≤ 32 }
    requires options_size_in_bounds { options_size ≤ length options.old }
    ensures { OptionsOf (book_of book.now) direction.now options.new }
{
    let mut count = 0;
    put_start(options, 0, 0);
    for i in 0..direction.len() {
        count = list_at(book, index, t, direction, i + 1, options, count);
        put_start(options, i + 1, count);
    }
}
