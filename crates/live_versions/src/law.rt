//! The law of every history of a store.
ghost use Rattle.live_versions.specs.History.{NeverFalls, EntersNoLess, SeesWholeBatches, EntersWholeBatches};

/// In every legal history of a store, the version that a reader has seen never falls, a reader never enters a version
/// below one that it entered or learnt of, and every such version is that of whole batches, counted from the first.
/// Calling this function does nothing; its contract is the law.
pub fn versions_never_fall()
    ensures falls { NeverFalls }
    ensures enters { EntersNoLess }
    ensures whole { SeesWholeBatches }
    ensures entered { EntersWholeBatches }
{}
