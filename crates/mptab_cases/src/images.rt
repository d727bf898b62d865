//! Images made of pieces, and what `show` answers to them.

pub mod faults;
pub mod sizes;
pub mod worked;

/// What lies at a place in an image. What passes the image's end is left out.
pub enum Piece {
    /// The table of the board with one processor.
    Table(usize),
    /// So many bytes, 16 at most, as one number: the first byte is its highest.
    Bytes(usize, usize, u128),
}

/// One image, and what `show` answers to it.
pub struct Row {
    /// Why the answer is what it is.
    pub name: &'static str,
    /// The image's length; it is zero but for the pieces, of which a later one stands over an earlier.
    pub size: usize,
    /// What lies in it.
    pub pieces: &'static [Piece],
    /// The call's status.
    pub status: u8,
    /// The whole text.
    pub text: &'static str,
}

/// The pointer of the board with one processor, at F0000h.
pub const POINTER: Piece = Piece::Bytes(0xF0000, 16, 0x5F4D505F_10000F00_01048100_00000000);

/// The word that names 500h as the start of the EBDA.
pub const WORD: Piece = Piece::Bytes(0x40E, 2, 0x5000);

/// The pointer of the same board at 500h, to a table at 510h.
pub const SMALL_POINTER: Piece = Piece::Bytes(0x500, 16, 0x5F4D505F_10050000_01048B00_00000000);
