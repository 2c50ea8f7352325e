// Program 'hunt': reads a ceiling and a chart from standard input, and prints what one run with zero multipliers finds. What it reads and prints
// is crate reports'; here stand only where from and where to.
#![tactic(auto)]

use reports::Hunt;
use std::io;

fn main(rt: HostRuntime) -> io::Result<()> {
    reports::run::<Hunt, _, _>(&mut rt.stdin(), &mut rt.stdout())
}
