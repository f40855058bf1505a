// How a lent list is printed after the call: whole. `~n` is n places that are as before, and any other number stands for itself, with
// `*n` where n in a row are that number.
#![tactic(auto)]

use case_fill::Garbage;
use meaning::Step;
use std::{fmt, io};

// What a place is printed as: as it was before, a number, or a step.
#[derive(Clone, Copy, PartialEq)]
pub enum Shown {
    AsBefore,
    Number(i64),
    Step { first: u16, last: u16, entry: u16 },
}

impl From<u8> for Shown {
    fn from(b: u8) -> Shown {
        Shown::Number(i64::from(b))
    }
}

impl From<u16> for Shown {
    fn from(w: u16) -> Shown {
        Shown::Number(i64::from(w))
    }
}

impl From<i32> for Shown {
    fn from(z: i32) -> Shown {
        Shown::Number(i64::from(z))
    }
}

impl From<i64> for Shown {
    fn from(z: i64) -> Shown {
        Shown::Number(z)
    }
}

impl From<Step> for Shown {
    fn from(step: Step) -> Shown {
        Shown::Step {
            first: step.first,
            last: step.last,
            entry: step.entry,
        }
    }
}

// Places in a row that are printed as one.
#[derive(Clone, Copy)]
struct Run {
    shown: Shown,
    count: u64,
}

impl fmt::Display for Run {
    fn fmt<W: fmt::Write>(&self, f: &mut fmt::Formatter<W>) -> fmt::Result {
        let count = self.count;
        match self.shown {
            Shown::AsBefore => return write!(f, " ~{count}"),
            Shown::Number(z) => write!(f, " {z}")?,
            Shown::Step { first, last, entry } => write!(f, " {first}.{last}.{entry}")?,
        }
        if 1 < count {
            write!(f, "*{count}")?;
        }
        Ok(())
    }
}

// The run, printed where there is one.
fn put(rt: &impl Print, run: Option<Run>) -> io::Result<()> {
    match run {
        Some(run) => rt.print(run),
        None => Ok(()),
    }
}

// The run with one place more; where that is not as those before it the run is put, and the next one begins.
fn next(rt: &impl Print, run: Option<Run>, shown: Shown) -> io::Result<Run> {
    if let Some(
        Run {
            shown: before,
            count,
        },
    ) = run
        && before == shown
    {
        let count = count.wrapping_add(1);
        return Ok(Run { shown, count });
    }
    put(rt, run)?;
    Ok(Run { shown, count: 1 })
}

// The list behind its name, against the numbers expected at its beginning: there `~n` is n places as expected.
pub fn list_against<T: Garbage + Into<Shown>>(
    rt: &impl Print,
    name: &str,
    list: &[T],
    expected: &[T],
    fill: u16,
) -> io::Result<()> {
    rt.print(name)?;
    let mut run = None;
    let mut garbage = fill;
    for (i, place) in list.iter().enumerate() {
        let full = T::take(&mut garbage);
        let before: Shown = expected.get(i).copied().unwrap_or(full).into();
        let after: Shown = (*place).into();
        let shown = if before == after {
            Shown::AsBefore
        } else {
            after
        };
        run = Some(next(rt, run, shown)?);
    }
    put(rt, run)
}

// The list behind its name.
pub fn list<T: Garbage + Into<Shown>>(
    rt: &impl Print,
    name: &str,
    list: &[T],
    fill: u16,
) -> io::Result<()> {
    list_against(rt, name, list, &[], fill)
}
