// The word list, by whose lines words are spelled: where its lines start, and an index by which the number of a word is found. The index is ONE list of
// 16 bits with named parts: the heads of the buckets from 0 on, a head more for the lines that equal an earlier one, which no search meets, and a link for
// each line from LINKS on. A head or a link is 1 + a line's number, from 0 on, or 0.
#![tactic(auto)]

ghost use Rattle.std.specs.Prelude.{◌≡◌, ◌+◌, ◌≤◌, ◌<◌, length};
ghost use Rattle.arpa.specs.Words.{spelled};
ghost use Rattle.spelling.specs.Lines.{line_at, starts_size, Starts, Lined};
ghost use Rattle.spelling.specs.Index.{bucket_count, bucket_of, spelled_before, NumberIs, bucket_at, links_from, index_size, Cleared, Indexed, Spelling};

use tokens::same::same_bytes;
use tokens::scan::run_end;

// "to 65,534"
const WORDS_MOST: usize = 65534;

// How many buckets there are, and the one more, of the lines that equal an earlier one.
const BUCKETS: usize = 65536;

const REPEATS: usize = BUCKETS;

// Where the links begin.
const LINKS: usize = REPEATS + 1;

// How long the two lists are: the index, and where the lines start.
pub const INDEX_SIZE: usize = LINKS + WORDS_MOST;

pub const STARTS_SIZE: usize = WORDS_MOST + 1;

// ---- the lines

// Where each line starts, and behind the last where one more would: line k ends just before the place that `starts` has for line k + 1. How many
// lines there are, at most WORDS_MOST.
fn find_lines(list: &[u8], starts: &mut [usize]) -> usize
    requires { starts_size ≤ length starts.old }
    ensures { Lined list.now starts.new result }
{
    starts[0] = 0;
    let mut at = 0;
    for i in 0..WORDS_MOST {
        if list.len() < at {
            return i;
        }
        at = run_end(list, at, |b| b != b'\n') + 1;
        starts[i + 1] = at;
    }
    WORDS_MOST
}

// ---- the buckets

// The bucket of a word.
fn bucket(word: &[u8]) -> usize
    ensures { (result ≡ bucket_of word.now) × (result < bucket_count) }
{
    let hash = word.iter().fold(0u32, |h, b| {
        h.wrapping_mul(16777619)
            .wrapping_add(u32::from(*b))
            .wrapping_add(1)
    });
    (hash.wrapping_mul(2654435769) / 65536) as usize
}

// ---- the search

// The bytes of line k.
fn line_at<'a>(list: &'a [u8], starts: &[usize], k: usize) -> &'a [u8]
    requires { Starts list.now starts.now (k + 1) }
    ensures { result.now ≡ line_at list.now k }
{
    let at = starts[k];
    let end = starts[k + 1] - 1;
    &list[at..end]
}

// Walks the chain of the word's bucket h: the number of the word, where it is one of the first `count` lines.
fn find(
    list: &[u8],
    index: &[u16],
    starts: &[usize],
    count: usize,
    word: &[u8],
    h: usize,
) -> Option<usize>
    requires indexed { Indexed list.now index.now starts.now count }
    requires h_value { (h ≡ bucket_of word.now) × (h < bucket_count) }
    ensures { NumberIs (spelled_before list.now count word.now) result }
{
    let mut at = halves::number_at(index, h);
    // No iterator: the chain goes from link to link, as they stand in the list.
    while at > 0 {
        let k = at - 1;
        if same_bytes(line_at(list, starts, k), word) {
            return Some(at);
        }
        at = halves::number_at(index, LINKS + k);
    }
    None
}

// ---- the index

// No head: every bucket is empty.
fn clear(index: &mut [u16])
    requires { links_from ≤ length index.old }
    ensures { Cleared index.new }
{
    index[..LINKS].fill(0);
}

// The bucket of line i, where the lines before it are indexed: that of its bytes, unless one of them equals it.
fn bucket_at(list: &[u8], index: &[u16], starts: &[usize], i: usize) -> usize
    requires indexed { Indexed list.now index.now starts.now i }
    requires starts { Starts list.now starts.now (i + 1) }
    ensures { (result ≡ bucket_at list.now i) × (result < links_from) }
{
    let line = line_at(list, starts, i);
    let h = bucket(line);
    match find(list, index, starts, i, line, h) {
        Some(_) => REPEATS,
        None => h,
    }
}

// Puts line i before the others of its bucket.
fn insert(list: &[u8], index: &mut [u16], starts: &[usize], i: usize)
    requires indexed { Indexed list.now index.old starts.now i }
    requires starts { Starts list.now starts.now (i + 1) }
    ensures { Indexed list.now index.new starts.now (i + 1) }
{
    let h = bucket_at(list, index, starts, i);
    index[LINKS + i] = index[h];
    index[h] = (i + 1) as u16;
}

// Indexes all lines.
fn index_lines(list: &[u8], index: &mut [u16], starts: &[usize], count: usize)
    requires lined { Lined list.now starts.now count }
    requires index_size_in_bounds { index_size ≤ length index.old }
    ensures { Spelling list.now index.new starts.now count }
{
    clear(index);
    for i in 0..count {
        insert(list, index, starts, i);
    }
}

// ---- the word list

// Indexes the lines of a word list; how many there are, at most 65,534.
pub fn index_words(list: &[u8], index: &mut [u16], starts: &mut [usize]) -> usize
    requires index_size_in_bounds { index_size ≤ length index.old }
    requires starts_size_in_bounds { starts_size ≤ length starts.old }
    ensures { Spelling list.now index.new starts.new result }
{
    let lines = find_lines(list, starts);
    index_lines(list, index, starts, lines);
    lines
}

// The number of a word by the word list, 0 where it is not in it.
pub fn find_word(list: &[u8], index: &[u16], starts: &[usize], count: usize, word: &[u8]) -> usize
    requires { Spelling list.now index.now starts.now count }
    ensures { result ≡ spelled list.now word.now }
{
    let h = bucket(word);
    find(list, index, starts, count, word, h).unwrap_or(0)
}

// A word list whose lines are indexed: its bytes, the index, where the lines start, and how many there are, at most 65,534.
#[derive(Clone, Copy)]
pub struct WordList<'a> {
    pub list: &'a [u8],
    pub index: &'a [u16],
    pub starts: &'a [usize],
    pub count: usize,
    pub ghost spelling: { Spelling list.now index.now starts.now count },
}

impl<'a> WordList<'a> {
    // Indexes the lines of a word list.
    pub fn new(list: &'a [u8], index: &'a mut [u16], starts: &'a mut [usize]) -> WordList<'a>
        requires index_size_in_bounds { index_size ≤ length index.old }
        requires starts_size_in_bounds { starts_size ≤ length starts.old }
        ensures { result.list.now ≡ list.now }
    {
        let count = index_words(list, index, starts);
        WordList {
            list,
            index,
            starts,
            count,
        }
    }

    // The number of a word, where it is in the list.
    #[tactic(auto, using(crate::proofs::Words::before_all))]
    pub fn number_of(&self, word: &[u8]) -> Option<usize>
        ensures { NumberIs (spelled self.now.list.now word.now) result }
    {
        let h = bucket(word);
        find(self.list, self.index, self.starts, self.count, word, h)
    }
}
