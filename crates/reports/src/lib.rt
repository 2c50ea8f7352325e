// What the programs of document 01 print, byte for byte, as functions of what they read; a program says only which reader and which writer.
#![tactic(auto)]

mod input;
mod lines;
mod program;
mod rulings;
mod searching;

pub use input::{INPUT_SIZE, Input};
pub use program::{BUFFER_SIZE, Program, Text, printed, report, run};
pub use rulings::Rulings;
pub use searching::Hunt;

// The programs' multipliers are zero, and count in whole minutes.
pub(crate) const PLAIN_DENOMINATOR: u64 = 1;
