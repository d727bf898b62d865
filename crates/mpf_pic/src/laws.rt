//! A law of the wiring, the contract of a function that does nothing.

ghost use Rattle.mpf_pic.specs.Play.{AcknowledgesByRule};

/// From any pair and wiring on, after any calls, a vector is acknowledged only where the way of INTR
/// isn't closed, and INTR holds.
pub fn vectors_come_where_intr_comes()
    ensures { AcknowledgesByRule }
{}
