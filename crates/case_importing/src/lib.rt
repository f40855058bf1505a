// Call 11: an ARPA text imported. It reads what it is asked from its line, puts the list that it is to lend at the beginning of an array that is full of other
// numbers, and prints what it was replied and the whole array.
#![tactic(auto)]

use case_line::line::Line;
use case_reply::reply;
use std::io;

// The ARPA text's bytes, the word list's, the list that is lent, how many of its numbers are in use, and the number that the array's first place would hold.
pub fn import_arpa(rt: &impl Print, line: &mut Line) -> io::Result<()> {
    let mut arpa = [0u8; 120000];
    let mut spelling = [0u8; 120000];
    let mut lent = [0i32; 41000];
    let mut list = [0i32; 41000];
    let arpa = line.list(&mut arpa);
    let spelling = line.list(&mut spelling);
    let lent = line.list(&mut lent);
    let used: usize = line.read();
    let fill: u16 = line.read();
    let n = lent.len();
    case_fill::fill(&mut list, fill);
    list[..n].copy_from_slice(lent);
    let answer = importing::import_arpa(arpa, spelling, &mut list[..n], used);
    reply::read(rt, answer)?;
    case_show::list_against(rt, " book", &list, lent, fill)
}
