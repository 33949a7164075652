//! What holds of every life of a store. Each function does nothing when it is called; its contract is the law.
ghost use Rattle.life.specs.Laws.{OpenReaches, HasOneLife, LoadKeeps, LoadMoKeeps, RefusalKeeps, PublishKeeps};
ghost use Rattle.life.specs.Laws.{EnterKeeps, AskKeeps, AskFaultKeeps, LearnKeeps, SettleKeeps};
ghost use Rattle.life.specs.Serving.{ServeKeeps};
ghost use Rattle.life.specs.Continuing.{StopKeeps};

/// `open_store` answers a store with which nothing was done yet.
pub fn open_reaches()
    ensures { OpenReaches }
{}

/// A load, accepted or refused, is one more event of its publisher.
pub fn load_keeps()
    ensures po { LoadKeeps }
    ensures mo { LoadMoKeeps }
    ensures refused { RefusalKeeps }
{}

/// A publish is one more event of its publisher.
pub fn publish_keeps()
    ensures { PublishKeeps }
{}

/// An entry with its look-ups, or a notice, is one more act of its reader.
pub fn read_keeps()
    ensures enter { EnterKeeps }
    ensures ask { AskKeeps }
    ensures ask_fault { AskFaultKeeps }
    ensures learn { LearnKeeps }
    ensures settle { SettleKeeps }
{}

/// Whatever the schedule of the threads was, a store whose readers have settled has one history from its opening on:
/// each load, publish and entry is a step of it.
pub fn one_life()
    ensures { HasOneLife }
{}

/// A call of `serve` that is answered Ok adds its jobs to its publisher's events, and to each reader's acts an entry
/// for each query, between two notices.
pub fn serve_keeps()
    ensures { ServeKeeps }
{}

/// Even after a run that ended early, what its publisher did is a legal history: some first commands are more events.
pub fn stop_keeps()
    ensures { StopKeeps }
{}
