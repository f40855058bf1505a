// Scoring a proposed list on plain numbers, with what the book and the direction say in a local array: about 494,000 bytes of stack.
#![tactic(auto)]

ghost use Rattle.std.specs.Prelude.{◌≡◌, ◌≤◌};
ghost use Rattle.meaning.specs.Reply.{reply_of, score_proposal};
ghost use Rattle.records.specs.Plain.{steps_of};

use book::entries::INDEX_SIZE;
use meaning::{Refusal, Totals};
use records::Plain;

// "Scoring a proposed list", of at most 33 steps as plain numbers: 2 to 6, 9, 10 and 16 to 19, and where none refuses the score and who
// supplied it.
pub fn score_plain(book: &[i32], direction: &[u16], plain: Plain) -> Result<Totals, Refusal>
    requires { plain.count ≤ 33 }
    ensures { reply_of result ≡ score_proposal book.now direction.now (steps_of plain) }
{
    let mut index = [0u16; INDEX_SIZE];
    let t = opening::open_and_begin(book, direction, &mut index)?;
    proposal::score_steps(book, &index, t, direction, plain)
}
