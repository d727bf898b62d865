//! What is kept of a pin beside its bits.

/// The two halves of a pin's entry in the redirection table, without the delivery status (bit 12) and
/// remote IRR (bit 14).
#[derive(Clone, Copy)]
pub struct Redirection {
    pub low: u32,
    pub high: u32,
}
