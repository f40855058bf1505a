// What the calls and their contracts share: the records and the answers of document 01.
// specs/ says what each stands for; there is no decoder here.
#![tactic(auto)]

ghost use Rattle.meaning.specs.Questions.{number};
ghost use Rattle.meaning.specs.State.{IsStart, score_bound};
ghost use Rattle.std.specs.Prelude.{◌≡◌, pos};

// A step: entry `entry` of the book translates the direction's words `first` to `last`. All three count from 1.
#[derive(Clone, Copy)]
pub struct Step {
    pub first: u16,
    pub last: u16,
    pub entry: u16,
}

// A state: the last two target words, the covered positions as a binary number (its lowest digit is position 1), the last
// step's last position, and the score.
#[derive(Clone, Copy)]
pub struct State {
    pub word1: u16,
    pub word2: u16,
    pub covered: u32,
    pub r: u16,
    pub score: i64,
}

impl State {
    // Document 01's form: an associated constant of the state type gives the start state ..
    pub const START: State = State {
        word1: 0,
        word2: 0,
        covered: 0,
        r: 0,
        score: 0,
    };

    // .. and another gives the score bound.
    pub const SCORE_BOUND: i64 = 810_240_000;

    // The constant is the start state of every direction.
    pub fn start() -> State
        ensures { IsStart result }
    {
        State::START
    }

    // The constant is the bound: no state's score passes it on either side of 0.
    pub fn score_bound() -> i64
        ensures { result ≡ pos score_bound }
    {
        State::SCORE_BOUND
    }
}

// The question whose answer was no; `number` in specs/Questions gives each its number.
#[derive(Clone, Copy)]
pub enum Refusal {
    BookText,
    LineFields,
    BLine,
    NumberRange,
    LineCount,
    RepeatedTriple,
    ListTooShort,
    DirectionText,
    WordCount,
    WordRange,
    Width,
    StepsOrWordsTooShort,
    StoreTooSmall,
    NoDerivation,
    LastSetEmpty,
    DoesNotFit,
    CoveredTwice,
    JumpTooLong,
    Uncovered,
    RepeatedShorter,
    StoredCounts,
    AbsentEntry,
    ArpaText,
    UnlistedWord,
    ValueRange,
    RoundEnds,
}

// The refusal's number in the papers.
pub fn number_of(refusal: Refusal) -> usize
    ensures { result ≡ number refusal }
{
    match refusal {
        Refusal::BookText => 1,
        Refusal::LineFields => 2,
        Refusal::BLine => 3,
        Refusal::NumberRange => 4,
        Refusal::LineCount => 5,
        Refusal::RepeatedTriple => 6,
        Refusal::ListTooShort => 7,
        Refusal::DirectionText => 8,
        Refusal::WordCount => 9,
        Refusal::WordRange => 10,
        Refusal::Width => 11,
        Refusal::StepsOrWordsTooShort => 12,
        Refusal::StoreTooSmall => 13,
        Refusal::NoDerivation => 14,
        Refusal::LastSetEmpty => 15,
        Refusal::DoesNotFit => 16,
        Refusal::CoveredTwice => 17,
        Refusal::JumpTooLong => 18,
        Refusal::Uncovered => 19,
        Refusal::RepeatedShorter => 20,
        Refusal::StoredCounts => 21,
        Refusal::AbsentEntry => 22,
        Refusal::ArpaText => 23,
        Refusal::UnlistedWord => 24,
        Refusal::ValueRange => 25,
        Refusal::RoundEnds => 26,
    }
}

// Which of the triple that a target word ends, the pair, the word alone or u supplied its score; `place` in specs/Derivation gives each its place
// among the four counts.
#[derive(Clone, Copy)]
pub enum Supplier {
    Triple,
    Pair,
    Word,
    Unseen,
}

// Of a derivation's target words, how many were supplied by each.
#[derive(Clone, Copy)]
pub struct Supplied {
    pub triples: usize,
    pub pairs: usize,
    pub words: usize,
    pub unseen: usize,
}

// A successful scoring: the score, and who supplied the scores of the target words.
#[derive(Clone, Copy)]
pub struct Totals {
    pub score: i64,
    pub supplied: Supplied,
}

// A successful decode: the score, how many steps and target words were written, how many states were entered, and who supplied the scores of the
// target words.
#[derive(Clone, Copy)]
pub struct Answer {
    pub score: i64,
    pub steps: usize,
    pub words: usize,
    pub states: usize,
    pub supplied: Supplied,
}
