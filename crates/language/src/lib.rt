// The score of a triple in the language model, backed off to shorter histories: the triple's own, else by its last two words, else by the last, else u;
// and which of them supplies it.
#![tactic(auto)]

ghost use Rattle.std.specs.Prelude.{◌≡◌, drop};
ghost use mathlib.Core.List.{[], ◌∷◌, drop_last};
ghost use Rattle.meaning.specs.Derivation.{backed_off, is_listed, supplier};
ghost use Rattle.ngrams.specs.Grams.{words_of, key_of, grams_in, Indexed};
ghost use Rattle.language.specs.Language.{latest_score, latest_weight, unlisted_score, Shortens, IsModel};

use meaning::Supplier;
use ngrams::Key;

// What the language model is beside its records: how many there are, how many of them are pairs and words, and the score u of an unseen word.
#[derive(Clone, Copy)]
pub struct LanguageModel {
    pub count: usize,
    pub shorter: usize,
    pub unseen: i64,
}

// ---- the keys

// The words without the last: the history of a triple or of a pair.
fn history_of(key: Key) -> Key
    requires { Shortens key }
    ensures { result ≡ key_of (drop_last (words_of key)) }
{
    if key.order == 2 {
        Key::word(key.first)
    } else {
        Key::pair(key.first, key.second)
    }
}

// The words without the first.
fn rest_of(key: Key) -> Key
    requires { Shortens key }
    ensures { result ≡ key_of (drop 1 (words_of key)) }
{
    if key.order == 2 {
        Key::word(key.second)
    } else {
        Key::pair(key.second, key.third)
    }
}

// ---- one n-gram

// The score of the latest of the first `count` records that has the words of the key, or none where they are not listed.
fn lookup(index: &[u16], count: usize, key: Key) -> Option<i64>
    requires { Indexed index.now count }
    ensures { result ≡ latest_score index.now count key }
{
    let k = ngrams::find(index, count, key)?;
    Some(ngrams::score_at(index, k))
}

// Its back-off weight, or 0 where none has them.
fn weight_of(index: &[u16], count: usize, key: Key) -> i64
    requires { Indexed index.now count }
    ensures { result ≡ latest_weight index.now count key }
{
    match ngrams::find(index, count, key) {
        Some(k) => ngrams::weight_at(index, k),
        None => 0,
    }
}

// ---- the history grows shorter. Document 01's form: a lookup is taken apart by `let .. else`, and the missing case goes on

// The score of an n-gram that is not listed: the weight of its history and the score of the words without the first, which go on to a shorter history
// where they are not listed; a word scores u.
fn back_off(index: &[u16], m: LanguageModel, key: Key) -> i64
    requires model { IsModel index.now m }
    requires key_value { key ≡ key_of (words_of key) }
    ensures { result ≡ unlisted_score m.unseen (grams_in index.now m.count) (words_of key) }
{
    if key.order <= 1 {
        return m.unseen;
    }
    let rest = rest_of(key);
    let weight = weight_of(index, m.count, history_of(key));
    let Some(s) = lookup(index, m.count, rest) else {
        return weight + back_off(index, m, rest);
    };
    weight + s
}

// The score of the triple v, w, y where it is not listed: u where only triples are. (The model is copied here, for the call alone, so that a triple that is listed pays nothing for it.)
fn unlisted(index: &[u16], m: LanguageModel, v: usize, w: usize, y: usize) -> i64
    requires { IsModel index.now m }
    ensures { result ≡ unlisted_score m.unseen (grams_in index.now m.count) (v ∷ w ∷ y ∷ []) }
{
    if m.shorter == 0 {
        return m.unseen;
    }
    let model = LanguageModel {
        count: m.count,
        shorter: m.shorter,
        unseen: m.unseen,
    };
    back_off(index, model, Key::triple(v, w, y))
}

// The score of the triple v, w, y.
pub fn triple_score(index: &[u16], m: LanguageModel, v: usize, w: usize, y: usize) -> i64
    requires { IsModel index.now m }
    ensures { result ≡ backed_off m.unseen (grams_in index.now m.count) v w y }
{
    let Some(s) = lookup(index, m.count, Key::triple(v, w, y)) else {
        return unlisted(index, m, v, w, y);
    };
    s
}

// ---- who supplies the score

// Whether the words of the key are listed.
fn is_listed(index: &[u16], m: LanguageModel, key: Key) -> bool
    requires model { IsModel index.now m }
    requires key_value { key ≡ key_of (words_of key) }
    ensures { result ≡ is_listed (grams_in index.now m.count) (words_of key) }
{
    ngrams::find(index, m.count, key).is_some()
}

// Which of triple, pair, word or u supplies the score of the triple v, w, y: the first of them that is listed, as `triple_score` looks for them. The weights that it adds on its way supply nothing.
pub fn supplier(index: &[u16], m: LanguageModel, v: usize, w: usize, y: usize) -> Supplier
    requires { IsModel index.now m }
    ensures { result ≡ supplier (grams_in index.now m.count) v w y }
{
    let triple = Key::triple(v, w, y);
    if is_listed(index, m, triple) {
        return Supplier::Triple;
    }
    let pair = rest_of(triple);
    if is_listed(index, m, pair) {
        return Supplier::Pair;
    }
    if is_listed(index, m, rest_of(pair)) {
        return Supplier::Word;
    }
    Supplier::Unseen
}
