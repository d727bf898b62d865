//! The listing: tables as a text of lines, one for the floating pointer, one for the header and one
//! for each entry. The format is this project's own.
#![tactic(auto)]

mod entry_lines;
mod printing;
mod table_lines;
mod text;

pub use printing::print;
pub use text::{
    Part, push_decimal, push_hex, push_hex_bytes, push_line, push_part, push_quoted, push_text,
};
