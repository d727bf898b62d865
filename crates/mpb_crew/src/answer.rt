//! What came of a turn on the bus.

/// What came of an agent's turn.
#[derive(Clone, Copy)]
pub(crate) enum Answer {
    /// The agent made its op.
    Made,
    /// The agent may not step with the offer.
    Idle,
    /// No agent may step with any offer.
    Quiet,
}
