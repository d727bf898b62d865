//! Calls of the pair, and why a text has none.

use mpf_pair::Port;

/// A call of the pair of controllers, or a write of the interrupt mode register.
#[derive(Clone, Copy, PartialEq)]
pub enum PicOp {
    /// A write of a port of the pair.
    Put(Port, u8),
    /// A read of a port of the pair.
    Get(Port),
    /// A write of port 22h or 23h, and the value.
    Imcr(u8, u8),
    /// A line goes up: 0 to 15 without 2.
    Up(u8),
    /// A line goes down: 0 to 15 without 2.
    Down(u8),
    /// An acknowledgement of INTR.
    Ack,
}

/// Why a text is no list of calls.
#[derive(Clone, Copy, Debug, PartialEq)]
pub enum PicFault {
    /// The first line of another form, or without its line feed.
    Line {
        /// Its number, counted from 1.
        line: u32,
    },
    /// Memory ran out.
    NoMemory,
}
