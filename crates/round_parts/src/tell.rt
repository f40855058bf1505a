// What a direction of a round is answered.
ghost use Rattle.std.specs.Prelude.{◌≡◌, ◌||◌, ◌*◌, ◌≤◌, length};
ghost use Rattle.meaning.specs.Questions.{is_of_search};
ghost use Rattle.meaning.specs.Reply.{reply_of, written_over};
ghost use Rattle.records.specs.Plain.{steps_of};
ghost use Rattle.lists.specs.Steps.{numbers_of};
ghost use Rattle.meaning.specs.Round.{answer_numbers};
ghost use Rattle.round_parts.specs.Told.{AllCountable, is_searched};

use answer::PlainReply;
use meaning::{Answer, Refusal};

// The nine numbers of an answer: 0 and what a decode reports, or the refusal and eight zeros.
pub fn numbers_of(reply: Result<Answer, Refusal>) -> [i64; 9]
    requires { AllCountable reply }
    ensures { result ≡ answer_numbers (reply_of reply) }
{
    match reply {
        Ok(a) => {
            let n = lists::report::numbers_of(a);
            [0, n[0], n[1], n[2], n[3], n[4], n[5], n[6], n[7]]
        }
        Err(refusal) => {
            let k = meaning::number_of(refusal);
            [k as i64, 0, 0, 0, 0, 0, 0, 0, 0]
        }
    }
}

// One of 13 to 15.
fn is_of_search(k: usize) -> bool
    ensures { result ≡ is_of_search k }
{
    (13..=15).contains(&k)
}

// A search was begun: there is an answer, or one of 13 to 15.
pub fn is_searched(reply: Result<Answer, Refusal>) -> bool
    ensures { result ≡ is_searched (reply_of reply) }
{
    match reply {
        Ok(a) => true,
        Err(refusal) => is_of_search(meaning::number_of(refusal)),
    }
}

// What a direction is told, on its own places: the steps at the beginning of its numbers for steps, and its nine numbers. Returned is whether the store is all zero
// by now: it was, or the direction was searched.
pub fn put_told(steps: &mut [u16], answers: &mut [i64], told: PlainReply, swept: bool) -> bool
    requires count_in_bounds { (3 * told.plain.count ≤ length steps.old) × (told.plain.count ≤ 33) }
    requires answers_len { length answers.old ≡ 9 }
    requires all_countable { AllCountable told.reply }
    ensures steps_after { steps.new ≡ written_over (numbers_of (steps_of told.plain)) steps.old }
    ensures answers_after { answers.new ≡ answer_numbers (reply_of told.reply) }
    ensures value { result ≡ swept || is_searched (reply_of told.reply) }
{
    let reply = told.reply;
    lists::steps::put_all(steps, told.plain);
    let numbers = numbers_of(reply);
    lists::report::fill(answers, &numbers);
    swept || is_searched(reply)
}
