//! The lines of a listing read from the left: each reader gives the value whose line begins a text, and
//! what follows that line. The format is this project's own.
//!
//! Each step of a reader that may fail is a `let .. else` and not a `?`, since it is proved in half the
//! time.
#![tactic(auto)]

mod base_lines;
mod byte_fields;
mod ext_lines;
mod fields;
mod heads;
mod table_lines;

pub use base_lines::read_base_line;
pub use ext_lines::read_ext_line;
pub use fields::{
    read_byte, read_end, read_field, read_part, read_text, read_u8_field, read_u32_field,
};
pub use heads::{HeaderEnd, HeaderLine, PointerLine};
pub use table_lines::{read_header_line, read_pointer_line};
