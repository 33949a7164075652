//! Gates, at which a caller may hold a thread.

/// Which thread is at a gate.
#[derive(Debug, Drop)]
pub enum Place {
    /// The worker of the desk with this index, from 0.
    Worker(u32),
    /// The publishing thread.
    Publishing,
}

/// Called before each query of a desk and before each job, with its index from 0. Tests hold threads here; a server
/// lets all of them pass, by [`OpenGate`].
pub trait Gate {
    fn pass(&self, place: Place, index: u64);
}

/// A gate that lets all pass.
#[derive(Drop)]
pub struct OpenGate;

impl Gate for OpenGate {
    fn pass(&self, _place: Place, _index: u64) {}
}
