//! What a publisher has to do.
use desks::{Accepted, Job};
use live_versions::{StoreFault, Version};

/// A command to a publisher.
#[derive(Drop)]
pub enum Command {
    /// Load what the job is of. The load is then pending.
    Load(Job),
    /// Publish all pending loads as one batch.
    Publish,
}

/// What a command was answered.
#[derive(Debug, Drop)]
pub enum Outcome {
    /// The load was accepted.
    Loaded(Accepted),
    /// The load was refused for this reason, and changed nothing.
    Refused(StoreFault),
    /// This many loads are published now.
    Published(Version),
    /// The publish failed, for lack of memory or of a free slot. Something was pending, and stays so.
    Unpublished,
}
