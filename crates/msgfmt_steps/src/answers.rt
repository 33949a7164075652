//! What a run answers: to arguments that give no request, and about how it ended.
ghost use Rattle.std.specs.Prelude.{◌≤◌};
ghost use Rattle.devices.specs.Devices.{output_seen};
ghost use Rattle.msgfmt_steps.specs.RunDevices.{change};
ghost use Rattle.msgfmt_steps.specs.StepEnds.{AnswersWords, Tells};

use crate::outcome::{Cause, Status};
use crate::texts::Failure;
use devices::Sink;
use msgfmt_words::WordsFault;
use std::alloc::Global;

/// Answers arguments that give no request: with the help text if they ask for it.
pub fn answer_words<W: Sink>(fault: &WordsFault, writer: &mut W) -> Result<(), Cause>
    ensures { AnswersWords (change (output_seen W.contents W.failures) writer.old writer.new) fault.now result }
{
    match fault {
        WordsFault::Help(text) => {
            writer.write_all(text.as_bytes())?;
            Ok(())
        }
        WordsFault::Faulty => Err(Cause::Words),
        WordsFault::Memory => Err(Cause::Memory),
    }
}

/// Writes a line to the error output. If that can't be written, the run has failed all the same.
fn say<E: Sink>(errors: &mut E, line: &str)
    ensures { E.failures errors.old ≤ E.failures errors.new }
{
    let _written = errors.write_all(line.as_bytes());
}

/// The status of a run whose work is done, after a line that says why it failed. There is no line if the
/// error output fails. The status is `Memory` if there is no memory for the line.
pub fn end<E: Sink>(
    alloc: Global,
    done: Result<(), Cause>,
    input: &str,
    output: &str,
    errors: &mut E,
) -> Status
    ensures tells { Tells (change E.failures errors.old errors.new) done result }
    ensures later { E.failures errors.old ≤ E.failures errors.new }
{
    let Err(cause) = done else {
        return Status::Done;
    };
    if cause == Cause::ErrorOutput {
        return Status::Failed(cause);
    }
    let failure = Failure {
        cause,
        input,
        output,
    };
    match format!(in alloc; "{failure}\n") {
        Ok(line) => {
            say(errors, line.as_str());
            Status::Failed(cause)
        }
        Err(_) => {
            say(errors, "msgfmt: out of memory\n");
            Status::Failed(Cause::Memory)
        }
    }
}
