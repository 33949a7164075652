//! What INPUT compiles to.
ghost use Rattle.std.specs.Prelude.{◌≤◌, IfErr, IfOk};
ghost use Rattle.devices.specs.Devices.{input_seen};
ghost use Rattle.devices.specs.Files.{KeepsLog};
ghost use Rattle.msgfmt_steps.specs.RunDevices.{change, files_seen};
ghost use Rattle.msgfmt_tool.specs.RunSteps.{CompilesNamed, EndsCompiling};

use catalogue::{Compiled, Options, compile_owned};
use devices::{Files, Source};
use msgfmt_steps::{Cause, read_input};
use std::alloc::Global;

/// Compiles the text of INPUT. It takes the text, so that the text and its MO file aren't in memory at once.
pub(crate) fn compile_input<F: Files, R: Source>(
    alloc: Global,
    name: &str,
    options: Options,
    files: &mut F,
    reader: &mut R,
) -> Result<Compiled, Cause>
    ensures compiles { IfOk result (CompilesNamed
        (files_seen F.content F.written F.failures files.old)
        (change (input_seen R.remaining R.reads R.failures) reader.old reader.new) name.now options) }
    ensures fails { IfErr result (EndsCompiling
        (change (files_seen F.content F.written F.failures) files.old files.new)
        (change (input_seen R.remaining R.reads R.failures) reader.old reader.new) name.now options) }
    ensures none_written { KeepsLog (F.written files.old) (F.written files.new) }
    ensures later { F.failures files.old ≤ F.failures files.new }
{
    let text = read_input(alloc, name, files, reader)?;
    let compiled = compile_owned(alloc, text, options)?;
    Ok(compiled)
}
