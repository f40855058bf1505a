// Words and numbers of a case's line, printed. An error is that a write failed.
use std::io;

// The beginning of the line.
pub fn begin(rt: &impl Print, label: &[u8]) -> io::Result<()> {
    rt.write_all(label)?;
    print!(rt; ": ")
}

// `N,` and a count.
pub fn count(rt: &impl Print, n: usize) -> io::Result<()> {
    print!(rt; "N,{n}")
}

// The numbers of a row, a comma before each.
pub fn row(rt: &impl Print, numbers: &[i32]) -> io::Result<()> {
    for z in numbers {
        print!(rt; ",{z}")?;
    }
    Ok(())
}
