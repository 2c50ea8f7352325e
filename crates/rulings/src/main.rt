// Program 'rulings': reads a ceiling and a chart from standard input, and prints the rulings with zero multipliers. What it reads and prints is
// crate reports'; here stand only where from and where to.
#![tactic(auto)]

use reports::Rulings;
use std::io;

fn main(rt: HostRuntime) -> io::Result<()> {
    reports::run::<Rulings, _, _>(&mut rt.stdin(), &mut rt.stdout())
}
