// What a call replied, printed. An error is that a write failed.
use crate::say;
use meaning::{Answer, Refusal, Supplied, Totals};
use std::io;

// `R,` and the refusal's number.
fn refused(rt: &impl Print, refusal: Refusal) -> io::Result<()> {
    print!(rt; "R,{}", meaning::number_of(refusal))
}

// How many numbers were read.
pub fn read(rt: &impl Print, reply: Result<usize, Refusal>) -> io::Result<()> {
    match reply {
        Ok(n) => say::count(rt, n),
        Err(refusal) => refused(rt, refusal),
    }
}

// Whether a check passed.
pub fn checked(rt: &impl Print, reply: Result<(), Refusal>) -> io::Result<()> {
    match reply {
        Ok(()) => print!(rt; "passed"),
        Err(refusal) => refused(rt, refusal),
    }
}

// How many words were supplied by a triple, a pair, a word and u.
fn supplied(rt: &impl Print, s: Supplied) -> io::Result<()> {
    print!(rt;
        " N,{} N,{} N,{} N,{}",
        s.triples, s.pairs, s.words, s.unseen
    )
}

// A proposed list's score, and the four counts.
fn totals(rt: &impl Print, t: Totals) -> io::Result<()> {
    print!(rt; "{}", t.score)?;
    supplied(rt, t.supplied)
}

// A scoring's answer.
pub fn scored(rt: &impl Print, reply: Result<Totals, Refusal>) -> io::Result<()> {
    match reply {
        Ok(t) => totals(rt, t),
        Err(refusal) => refused(rt, refusal),
    }
}

// `A,`, the score, how many steps, words and states, and the four counts.
fn answer(rt: &impl Print, a: Answer) -> io::Result<()> {
    print!(rt; "A,{} N,{} N,{} N,{}", a.score, a.steps, a.words, a.states)?;
    supplied(rt, a.supplied)
}

// A decode's answer.
pub fn decoded(rt: &impl Print, reply: Result<Answer, Refusal>) -> io::Result<()> {
    match reply {
        Ok(a) => answer(rt, a),
        Err(refusal) => refused(rt, refusal),
    }
}
