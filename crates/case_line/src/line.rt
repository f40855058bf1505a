// A case's numbers, decimal, a blank behind each. In a list a group may stand for many numbers: `( n z .. )` is what stands in it n
// times; there `#` is a number that counts up from z, and `/d` is the digit of that number at d = 1, 10, 100 .., as a byte.
ghost use Rattle.std.specs.Prelude.{◌≤◌, length};

use crate::number::Number;
use meaning::Step;

// A case's line, from the place on where the reader stands.
#[derive(Clone, Copy)]
pub struct Line<'a> {
    rest: &'a [u8],
}

// A list's group: the line from its first item on, how many turns are left and the number that counts. In no group none are left.
#[derive(Clone, Copy)]
struct Group<'a> {
    first: Line<'a>,
    left: u64,
    counted: u64,
}

// The digit of v at d, as a byte.
fn digit_at(v: u64, d: u64) -> u64 {
    v.checked_div(d).unwrap_or(0) % 10 + 48
}

impl<'a> Line<'a> {
    pub fn new(text: &'a [u8]) -> Line<'a> {
        Line { rest: text }
    }

    // Takes the byte where it stands here, and says whether it does.
    fn take(&mut self, byte: u8) -> bool {
        match self.rest.split_first() {
            Some((first, rest)) if *first == byte => {
                self.rest = rest;
                true
            }
            _ => false,
        }
    }

    // The number that the digits here make.
    fn digits(&mut self) -> u64 {
        let rest = self.rest;
        let end = rest
            .iter()
            .position(|b| !b.is_ascii_digit())
            .unwrap_or(rest.len());
        self.rest = &rest[end..];
        rest[..end].iter().fold(0u64, |v, b| {
            v.wrapping_mul(10)
                .wrapping_add(u64::from(b.wrapping_sub(b'0')))
        })
    }

    // The next number.
    pub fn number(&mut self) -> Number {
        let minus = self.take(b'-');
        let size = self.digits();
        self.take(b' ');
        Number { minus, size }
    }

    // The next number, in that type.
    pub fn read<T: From<Number>>(&mut self) -> T {
        T::from(self.number())
    }

    // The next number, cut to `most`.
    pub fn at_most(&mut self, most: usize) -> usize
        ensures { result ≤ most }
    {
        usize::from(self.number()).min(most)
    }

    // Past the end of a group, where one stands here: its next turn, or what follows it.
    fn turn(&mut self, group: &mut Group<'a>) {
        if !self.take(b')') {
            return;
        }
        match group.left.checked_sub(1) {
            Some(left) => {
                *self = group.first;
                group.left = left;
                group.counted = group.counted.wrapping_add(1);
            }
            None => {
                self.take(b' ');
                group.counted = 0;
            }
        }
    }

    // Into a group, where one begins here.
    fn enter(&mut self, group: &mut Group<'a>) {
        if !self.take(b'(') {
            return;
        }
        self.take(b' ');
        let turns = self.number();
        let counted = self.number();
        *group = Group {
            first: *self,
            left: turns.size.saturating_sub(1),
            counted: counted.size,
        };
    }

    // The next item of a list: a number, the counting number, or a digit of that.
    fn item(&mut self, group: &mut Group<'a>) -> Number {
        self.turn(group);
        self.enter(group);
        let counted = group.counted;
        if self.take(b'#') {
            self.take(b' ');
            return Number {
                minus: false,
                size: counted,
            };
        }
        if self.take(b'/') {
            let d = self.number();
            return Number {
                minus: false,
                size: digit_at(counted, d.size),
            };
        }
        self.number()
    }

    // A list: how many numbers, and each. They are put at the beginning of `list`, and that part of it is given out.
    pub fn list<'b, T: From<Number> + Copy>(&mut self, list: &'b mut [T]) -> &'b [T]
        ensures { length result.now ≤ length list.old }
    {
        let count = self.at_most(list.len());
        let mut group = Group {
            first: *self,
            left: 0,
            counted: 0,
        };
        let part = &mut list[..count];
        for place in part.iter_mut() {
            *place = T::from(self.item(&mut group));
        }
        if self.take(b')') {
            self.take(b' ');
        }
        part
    }

    // A step: its three numbers.
    fn step(&mut self) -> Step {
        Step {
            first: self.read(),
            last: self.read(),
            entry: self.read(),
        }
    }

    // A list of steps: how many, and each. Those beyond fit nowhere.
    pub fn steps<'b>(&mut self, list: &'b mut [Step]) -> &'b [Step]
        ensures { length result.now ≤ length list.old }
    {
        let count = self.at_most(list.len());
        let part = &mut list[..count];
        for place in part.iter_mut() {
            *place = self.step();
        }
        part
    }
}
