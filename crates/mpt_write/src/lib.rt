//! The writer of tables and their canonical form: whether tables are well formed and have a place in an
//! image of 1 MiB, their bytes, the image, and the same tables without what is reserved (MultiProcessor
//! Specification 1.4, chapter 4).
#![tactic(auto)]

mod block;
mod canonical;
mod clearing;
mod fitting;
mod header;
mod image;
mod judging;
mod order;
mod raising;
mod sizes;
mod values;

pub use block::write_block;
pub use canonical::canon;
pub use fitting::{fits, well_formed};
pub use image::write_image;
pub use judging::is_canon;
pub use raising::raise;
pub use sizes::block_bytes;
