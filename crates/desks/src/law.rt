//! The laws of every service.
ghost use Rattle.desks.specs.Laws.{HasOneEnd};
ghost use Rattle.desks.specs.ServedHistory.{HasOneHistory};

/// The outcomes of jobs, and the store that they leave, depend on the store and the jobs alone, not on the schedule of
/// the threads. Calling this function does nothing; its contract is the law.
pub fn one_end()
    ensures { HasOneEnd }
{}

/// Whatever the schedule of the threads, everything that was served fits into one history of the store: jobs and
/// look-ups are its steps, one after another, and each look-up is answered from what is published at its step. Calling
/// this function does nothing; its contract is the law.
pub fn one_history()
    ensures { HasOneHistory }
{}
