// Steps on plain numbers: what an entry's words score, where it fits, what it adds to a score, and the state that it leads to.
#![tactic(auto)]

use language::LanguageModel;

pub mod model;
pub mod places;
pub mod step;

// The numbers of a book and a direction that every step needs: how many words the direction has, the reordering limit, the
// penalty, how many entries there are, and the language model.
#[derive(Clone, Copy)]
pub struct Setup {
    pub n: usize,
    pub limit: usize,
    pub eta: i64,
    pub phrases: usize,
    pub model: LanguageModel,
}

// A row of target words: the sum of the scores of the triples that they end, within words_bound, and the last two words.
#[derive(Clone, Copy)]
pub struct Row {
    pub score: i32,
    pub word1: u16,
    pub word2: u16,
}

// An entry by its places in the loaded book: where its source words start and how many they are, the same of its target words,
// and its score.
#[derive(Clone, Copy)]
pub struct Phrase {
    pub source: usize,
    pub long: usize,
    pub target: usize,
    pub count: usize,
    pub g: i64,
}
