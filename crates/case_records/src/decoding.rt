// A list of step records, lent to decode into.
ghost use Rattle.std.specs.Prelude.{◌≡◌, ◌≤◌, length, take, drop};
ghost use Rattle.meaning.specs.Reply.{Decodes};

use meaning::{Answer, Refusal, Step};

// The reply with the first `room` of the steps lent; the others are as before.
pub fn ask(
    book: &[i32],
    direction: &[u16],
    width: i64,
    steps: &mut [Step],
    room: usize,
    words: &mut [u16],
    store: &mut [i64],
) -> Result<Answer, Refusal>
    requires { room ≤ length steps.old }
    ensures decodes { Decodes book.now direction.now width (take room steps.old) (take room steps.new) words.old words.new store.old store.new result }
    ensures others { drop room steps.new ≡ drop room steps.old }
{
    phrase::decode(book, direction, width, &mut steps[..room], words, store)
}
