//! Laws about the output of every script.
ghost use Rattle.catserve.specs.Laws.{HasOneOutput, HasSomeOutput, HaveFirstOutput, IsInFront};

/// A text has exactly one output, or a fault that a script can have. So the text alone determines what a run writes,
/// whatever the schedule of its threads. Calling this function does nothing; its contract is the law.
pub fn one_output()
    ensures one { HasOneOutput }
    ensures some { HasSomeOutput }
{}

/// The output of a text's first rounds is a prefix of the output of the text. So what a session has written when some
/// rounds have ended is a prefix of what its whole text means. Calling this function does nothing; its contract is the
/// law.
pub fn first_rounds()
    ensures some { HaveFirstOutput }
    ensures front { IsInFront }
{}
