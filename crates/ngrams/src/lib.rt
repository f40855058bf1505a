// The index of the language model's n-grams, in ONE list that holds what is known of a book, as named parts: the heads of the buckets from 0 on,
// and the records from RECORDS on, eight numbers each (three words, how many of them are the n-gram's, and the score and the weight in two halves
// each) and the link behind them. A list for fewer records may end behind them; what stands from RECORDS_END on is the caller's. A head or a
// link is 1 + a record's number, or 0.
#![tactic(auto)]

ghost use Rattle.std.specs.Prelude.{◌≡◌, [], ◌∷◌, ◌+◌, ◌≤◌, ◌<◌, length, get_or};
ghost use Rattle.ngrams.specs.Parts.{bucket_count, record_at, record_named};
ghost use Rattle.ngrams.specs.Grams.{key_at, key_of, score_at, weight_at, word_or0, put_record, bucket_of, Room, has_place, Indexed, Cleared, Inserted, latest_with, earlier_alike, number_or0, with_repeat, Compared};

use lines::WORD_SPAN;
use meaning::Refusal;

// How many buckets there are, how many records there may be, and how many numbers a record has.
const BUCKETS: usize = 16384;

pub const RECORDS_MOST: usize = 3 * lines::GRAMS_MOST;

const RECORD_SIZE: usize = 8;

// And with its link.
pub const RECORD_STEP: usize = RECORD_SIZE + 1;

// Where the records begin, and where they end.
pub const RECORDS: usize = BUCKETS;

pub const RECORDS_END: usize = RECORDS + RECORD_STEP * RECORDS_MOST;

// The words of an n-gram in their order, 0 for each that it does not have, and how many it has: 3 for a triple, 2 for a pair, 1 for a word.
#[derive(Clone, Copy, PartialEq, Eq)]
pub struct Key {
    pub first: usize,
    pub second: usize,
    pub third: usize,
    pub order: usize,
}

impl Key {
    #[tactic(auto, unfolding(crate::specs::Grams::key_of))]
    pub fn triple(v: usize, w: usize, y: usize) -> Key
        ensures { result ≡ key_of (v ∷ w ∷ y ∷ []) }
    {
        Key {
            first: v,
            second: w,
            third: y,
            order: 3,
        }
    }

    #[tactic(auto, unfolding(crate::specs::Grams::key_of))]
    pub fn pair(w: usize, y: usize) -> Key
        ensures { result ≡ key_of (w ∷ y ∷ []) }
    {
        Key {
            first: w,
            second: y,
            third: 0,
            order: 2,
        }
    }

    #[tactic(auto, unfolding(crate::specs::Grams::key_of))]
    pub fn word(y: usize) -> Key
        ensures { result ≡ key_of (y ∷ []) }
    {
        Key {
            first: y,
            second: 0,
            third: 0,
            order: 1,
        }
    }

    // The bucket of a key.
    #[tactic(auto, unfolding(crate::specs::Grams::bucket_of))]
    fn bucket(self) -> usize
        ensures { (result ≡ bucket_of self) × (result < bucket_count) }
    {
        ((self.first % WORD_SPAN) * 40503
            + (self.second % WORD_SPAN) * 60493
            + (self.third % WORD_SPAN) * 25717)
            / 16
            % BUCKETS
    }
}

// ---- the parts of the list

// The words of record k.
#[tactic(auto, unfolding(crate::specs::Grams::key_at))]
fn key_at(index: &[u16], k: usize) -> Key
    requires { record_at (k + 1) ≤ length index.now }
    ensures { result ≡ key_at index.now k }
{
    let at = RECORDS + RECORD_STEP * k;
    Key {
        first: halves::number_at(index, at),
        second: halves::number_at(index, at + 1),
        third: halves::number_at(index, at + 2),
        order: halves::number_at(index, at + 3),
    }
}

// The record that the head or the link at this place of the list names, or none.
fn link_at(index: &[u16], at: usize) -> Option<usize>
    requires { at < length index.now }
    ensures { result ≡ record_named (get_or index.now at 0) }
{
    halves::number_at(index, at).checked_sub(1)
}

// Walks the chain of the key's bucket: the latest of the first `count` records that has its words, or none.
pub fn find(index: &[u16], count: usize, key: Key) -> Option<usize>
    requires { Indexed index.now count }
    ensures { result ≡ latest_with index.now key count }
{
    let mut next = link_at(index, key.bucket());
    // No iterator: the chain goes from link to link, as they stand in the list.
    while let Some(k) = next {
        if key_at(index, k) == key {
            return next;
        }
        next = link_at(index, RECORDS + RECORD_STEP * k + RECORD_SIZE);
    }
    None
}

// The score of record k.
pub fn score_at(index: &[u16], k: usize) -> i64
    requires { record_at (k + 1) ≤ length index.now }
    ensures { result ≡ score_at index.now k }
{
    halves::signed_at(index, RECORDS + RECORD_STEP * k + 4)
}

// The back-off weight of record k.
pub fn weight_at(index: &[u16], k: usize) -> i64
    requires { record_at (k + 1) ≤ length index.now }
    ensures { result ≡ weight_at index.now k }
{
    halves::signed_at(index, RECORDS + RECORD_STEP * k + 6)
}

// Is there a place for record n? A book has no more than RECORDS_MOST (question 5), and the list may be shorter than for so many.
#[tactic(auto, unfolding(crate::specs::Grams::has_place))]
pub fn has_place(index: &[u16], n: usize) -> bool
    ensures { result ≡ has_place index.now n }
{
    n < RECORDS_MOST && RECORDS + RECORD_STEP * (n + 1) <= index.len()
}

// ---- the writers: each says from where on the list is as it was

// Word j, from 1 on, of a line that lists n words; 0 where it lists fewer.
#[tactic(auto, unfolding(crate::specs::Grams::word_or0))]
fn word_or_0(line: &[i32], n: usize, j: usize) -> u16
    ensures { result ≡ word_or0 line.now n j }
{
    if j <= n { lines::word_at(line, j) } else { 0 }
}

// The record of a T, U or D line, put as record k.
pub fn put_record(index: &mut [u16], k: usize, line: &[i32])
    requires { record_at (k + 1) ≤ length index.old }
    ensures { index.new ≡ put_record index.old k line.now }
{
    let at = RECORDS + RECORD_STEP * k;
    let n = lines::order_of(line);
    index[at] = word_or_0(line, n, 1);
    index[at + 1] = word_or_0(line, n, 2);
    index[at + 2] = word_or_0(line, n, 3);
    index[at + 3] = n as u16;
    halves::put_signed(index, at + 4, lines::number_at(line, n + 1));
    halves::put_signed(index, at + 6, lines::number_at(line, n + 2));
}

// No head: every bucket is empty.
fn clear(index: &mut [u16])
    requires { bucket_count ≤ length index.old }
    ensures { Cleared index.old index.new }
{
    index[..BUCKETS].fill(0);
}

// Puts record i before the others of its bucket.
fn insert(index: &mut [u16], i: usize)
    requires indexed { Indexed index.old i }
    requires room { Room index.old (i + 1) }
    ensures { Inserted index.old index.new i }
{
    let h = key_at(index, i).bucket();
    index[RECORDS + RECORD_STEP * i + RECORD_SIZE] = index[h];
    index[h] = (i + 1) as u16;
}

// ---- questions 6 and 20

// What the records up to record i answer to them: `found` is what those before it answered. 6 stands, since it is asked first.
fn with_repeat(index: &[u16], i: usize, found: Option<Refusal>) -> Option<Refusal>
    requires indexed { Indexed index.now i }
    requires room { Room index.now (i + 1) }
    ensures { number_or0 result ≡ with_repeat (number_or0 found) (earlier_alike index.now i) (key_at index.now i).order }
{
    if let Some(Refusal::RepeatedTriple) = found {
        return found;
    }
    let key = key_at(index, i);
    if find(index, i, key).is_none() {
        return found;
    }
    if key.order == 3 {
        Some(Refusal::RepeatedTriple)
    } else {
        Some(Refusal::RepeatedShorter)
    }
}

// Do no two of the first `count` records have the same words? Refusal 6 where two triples have, else 20 where two pairs or two words have. The list is left
// as the records' index. The records stay.
pub fn index_all(index: &mut [u16], count: usize) -> Option<Refusal>
    requires { Room index.old count }
    ensures { Compared index.old index.new count result }
{
    clear(index);
    let mut found = None;
    for i in 0..count {
        found = with_repeat(index, i, found);
        insert(index, i);
    }
    found
}
