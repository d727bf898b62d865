//! What everything else stands on: numbers in bytes, sums, the reasons for which tables are
//! refused, and the outside world as two traits, a shelf of files and a sink for text.
#![tactic(auto)]

mod fault;
mod fields;
mod file_shelf;
mod laws;
mod mem_shelf;
mod mem_sink;
mod numbers;
mod out_sink;
mod outside;
mod writing;

pub use fault::{Fault, Reason};
pub use file_shelf::FileShelf;
pub use laws::{number_has_one_spelling, number_is_below_power, number_is_that_of_its_part};
pub use mem_shelf::MemShelf;
pub use mem_sink::MemSink;
pub use numbers::{bytes_at, part_at, sum8, u16_at, u32_at, u64_at};
pub use out_sink::OutSink;
pub use outside::{Failed, NoMemory, Shelf, Sink};
pub use writing::{append, checksum8, put_bytes, put_u16, put_u32, put_u64, seal8};
