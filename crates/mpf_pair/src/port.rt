//! The ports of the pair.

/// A port of the pair: each controller has a first port and a data port.
#[derive(Clone, Copy, PartialEq)]
pub enum Port {
    /// 20h.
    Master,
    /// 21h.
    MasterData,
    /// A0h.
    Slave,
    /// A1h.
    SlaveData,
}
