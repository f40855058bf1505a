// Document 01's rendering program, on the document's own example.
#![tactic(auto)]

use std::io;

fn main(rt: HostRuntime) -> io::Result<()> {
    render_run::run(&rt)
}
