// The program `round` of ticket 8, on a round of four directions.
#![tactic(auto)]

use std::io;

fn main(rt: HostRuntime) -> io::Result<()> {
    round_run::run(&rt)
}
