// What the lists that are lent are full of before the call: numbers that count up from one that the case says, so that no two beside
// each other are the same.
#![tactic(auto)]

use meaning::Step;

// A step for lists that are yet to be filled.
pub const NO_STEP: Step = Step {
    first: 0,
    last: 0,
    entry: 0,
};

// What a place of a lent list holds before the call.
pub trait Garbage: Copy {
    // Takes it from the words that count up, of which `next` is the first: 0 follows 65,535.
    fn take(next: &mut u16) -> Self;
}

impl Garbage for u16 {
    fn take(next: &mut u16) -> u16 {
        let word = *next;
        *next = word.wrapping_add(1);
        word
    }
}

// The word's last eight bits.
impl Garbage for u8 {
    fn take(next: &mut u16) -> u8 {
        (u16::take(next) % 256) as u8
    }
}

impl Garbage for i32 {
    fn take(next: &mut u16) -> i32 {
        i32::from(u16::take(next))
    }
}

impl Garbage for i64 {
    fn take(next: &mut u16) -> i64 {
        i64::from(u16::take(next))
    }
}

// Three words; the next step goes on behind them.
impl Garbage for Step {
    fn take(next: &mut u16) -> Step {
        Step {
            first: u16::take(next),
            last: u16::take(next),
            entry: u16::take(next),
        }
    }
}

// The list, made full of what counts up from `first`.
pub fn fill<T: Garbage>(list: &mut [T], first: u16) {
    let mut next = first;
    for place in list.iter_mut() {
        *place = T::take(&mut next);
    }
}
