// A step on plain numbers: its jump, what it adds to a score, and the state that it leads to.
ghost use Rattle.std.specs.Prelude.{◌≡◌, ◌+◌, ◌*◌, ◌^◌, ◌≤◌, ◌<◌};
ghost use Rattle.laws.specs.Integers.{Within};
ghost use Rattle.meaning.specs.State.{gain_bound};
ghost use Rattle.meaning.specs.Bounds.{score_most, penalty_most, words_bound};
ghost use Rattle.derivation.specs.Next.{jump_from, gain_by, state_by, CanNext};

use crate::{Phrase, Row, Setup};
use meaning::State;

// |r + 1 − first|
pub fn jump(r: usize, first: usize) -> usize
    requires { r < 2 ^ 63 }
    ensures { result ≡ jump_from r first }
{
    (r + 1).abs_diff(first)
}

// What a step adds to a score: the entry's, the penalty of its jump, and what its target words say, a sum within words_bound.
fn gain(t: Setup, p: Phrase, far: usize, row: Row) -> i64
    requires { (Within penalty_most t.eta) × ((Within score_most p.g) × ((far ≤ 32) × (Within words_bound row.score))) }
    ensures { (result ≡ gain_by t p far row) × Within gain_bound result }
{
    p.g + t.eta * far as i64 + row.score as i64
}

// The state after the entry's step over the positions first to last, which are free; its target words make the row.
pub fn next_state(t: Setup, p: Phrase, row: Row, first: usize, last: usize, s: State) -> State
    requires within { Within score_most p.g × Within words_bound row.score }
    requires can_next { CanNext t first last s }
    ensures { result ≡ state_by t p row first last s }
{
    let more = gain(t, p, jump(s.r as usize, first), row);
    State {
        word1: row.word1,
        word2: row.word2,
        covered: positions::covered_with(s.covered, first, last),
        r: last as u16,
        score: s.score + more,
    }
}
