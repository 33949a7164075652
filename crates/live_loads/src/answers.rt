//! The law that every load has exactly one answer.
ghost use Rattle.live_loads.specs.LoadAnswers.{TextsHaveOneAnswer, FilesHaveOneAnswer};

/// Every load has exactly one answer: it is accepted with one outcome, or refused for one reason, never both and never
/// neither. So the store, the names, and the text with its options (or the MO file) alone decide what a publisher's
/// `load` and `load_mo` return, except that either may run out of memory. Calling this function does nothing; its
/// contract is the law.
pub fn one_answer()
    ensures texts { TextsHaveOneAnswer }
    ensures files { FilesHaveOneAnswer }
{}
