//! What holds for the runs of every command line.
ghost use Rattle.msgfmt_tool.specs.Laws.{HasOneFile, HasOneStatus, HasSomeRun};

/// Every command line has exactly one outcome over the same files and the same input: the help text, bad arguments,
/// a missing INPUT, a refusal of its text, or its MO file. So the arguments and the bytes that are read decide the
/// exit status, unless a device fails or memory runs out. The function does nothing when it is called; its contract
/// is the law.
pub fn one_status()
    ensures one { HasOneStatus }
    ensures file { HasOneFile }
    ensures some { HasSomeRun }
{}
