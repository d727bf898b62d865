//! What a device does, one thing a turn (this project's own).

use mpb_spec::DevWord;

/// One thing that a device does.
#[derive(Clone, Copy)]
pub enum Act {
    /// It begins.
    Begin,
    /// It makes a word.
    Word(DevWord),
    /// It ends.
    End,
}
