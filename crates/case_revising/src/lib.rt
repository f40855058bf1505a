// Calls 9 and 10: an entry added, and an entry removed. Each reads what it is asked from its line, puts the list that it is to lend at the beginning of an
// array that is full of other numbers, and prints what it was replied and the whole array.
#![tactic(auto)]

use case_line::line::Line;
use case_reply::reply;
use std::io;

// 9: the list that is lent, how many of its numbers are in use, the numbers of the line, and the number that the array's first place would hold.
pub fn add_entry(rt: &impl Print, line: &mut Line) -> io::Result<()> {
    let mut lent = [0i32; 41000];
    let mut numbers = [0i32; 41000];
    let mut list = [0i32; 41000];
    let lent = line.list(&mut lent);
    let used: usize = line.read();
    let numbers = line.list(&mut numbers);
    let fill: u16 = line.read();
    let n = lent.len();
    case_fill::fill(&mut list, fill);
    list[..n].copy_from_slice(lent);
    reply::read(rt, revising::add_entry(&mut list[..n], used, numbers))?;
    case_show::list_against(rt, " book", &list, lent, fill)
}

// 10: the same with the entry to remove.
pub fn remove_entry(rt: &impl Print, line: &mut Line) -> io::Result<()> {
    let mut lent = [0i32; 41000];
    let mut list = [0i32; 41000];
    let lent = line.list(&mut lent);
    let used: usize = line.read();
    let entry: usize = line.read();
    let fill: u16 = line.read();
    let n = lent.len();
    case_fill::fill(&mut list, fill);
    list[..n].copy_from_slice(lent);
    reply::read(rt, revising::remove_entry(&mut list[..n], used, entry))?;
    case_show::list_against(rt, " book", &list, lent, fill)
}
