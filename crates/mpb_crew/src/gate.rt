//! What the workers of a threaded run pass.

use mpb_spec::Agent;

/// A gate that each agent's own worker passes before each of its turns.
pub trait Gate {
    /// Called by the agent's worker.
    fn pass(&self, agent: Agent);
}

/// A gate that lets every worker pass at once.
pub struct NoGate;

impl Gate for NoGate {
    fn pass(&self, _agent: Agent) {}
}
