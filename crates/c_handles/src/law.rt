//! The law of handles. Calling the function does nothing; its contract is the law.
ghost use Rattle.c_handles.specs.Closings.{ClosingsMayComeLast};
ghost use Rattle.c_handles.specs.Example.{FirstCallsArePossible};
ghost use Rattle.c_handles.specs.OneHistory.{HandlesHaveOneHistory, ReadersGoOn, ReadersStay};

/// Whatever a program does with its handles, from any threads: a reader's versions never fall and include each notice
/// that it entered after, and the look-ups of an entry are answered over as many loads as its version says. A reader
/// that was made at an entrance of a store stays in that store. The store has one legal history with its readers: its
/// loads and publishes, as they were answered, and of each reader the entries with the texts of their look-ups, and the
/// notices that it entered after.
///
/// A trace lists the calls one after another, so that each takes its handles as the calls before left them. Calls on
/// different handles may be listed in either order; so a closing may be listed last, since no later call has its
/// handle.
///
/// The history is that of a store and readers which are at hand together, when no call is running. Then `agree` may be
/// called for each of these readers. It is proved to say that what the reader has seen is a beginning of what is
/// published; it changes nothing, and never fails. So the law needs no premise but that the calls do what their
/// contracts say. While a publish is running, its store isn't at hand, and a reader may be ahead of it.
pub fn handles_have_one_history()
    ensures versions { ReadersGoOn }
    ensures stay { ReadersStay }
    ensures closings { ClosingsMayComeLast }
    ensures possible { FirstCallsArePossible }
    ensures history { HandlesHaveOneHistory }
{}
