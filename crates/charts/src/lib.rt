// Document 01's 'The chart as bytes': a graph read from bytes and written to them.
#![tactic(auto)]

mod reader;
mod writer;

pub use reader::read;
pub use writer::write;

// A limit, as specs/Limits.antt of crate graph has it.
pub const MAX_RECORDS: usize = 1000;

// A file of bytes: a header, then the records.
pub(crate) const HEADER_SIZE: usize = 8;

pub(crate) const RECORD_SIZE: usize = 12;

// The longest file.
pub const MAX_SIZE: usize = HEADER_SIZE + RECORD_SIZE * MAX_RECORDS;
