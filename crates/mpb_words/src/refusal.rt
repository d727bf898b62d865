//! Why a word is refused.

/// Why a word is refused. Of several causes the first in this order is told.
#[derive(Clone, Copy)]
pub enum WordWhy {
    /// The first part is no name of a word for this kind of agent.
    Name,
    /// The name has another count of numbers.
    Count,
    /// A part is no number.
    Number,
    /// A number is above the greatest of its place.
    Range,
}
