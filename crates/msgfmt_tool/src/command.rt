//! A run of the command.
ghost use Rattle.std.specs.Prelude.{map, string_bytes};
ghost use Rattle.msgfmt_words.specs.Requests.{asked_in};
ghost use Rattle.devices.specs.Devices.{input_seen, output_seen};
ghost use Rattle.msgfmt_steps.specs.RunDevices.{change, files_seen};
ghost use Rattle.msgfmt_tool.specs.Runs.{Runs};
ghost use Rattle.msgfmt_tool.specs.RunSteps.{Delivers, Works};

use crate::compiling::compile_input;
use catalogue::Compiled;
use devices::{Files, Sink, Source};
use msgfmt_steps::{Cause, Status, answer_words, end, report, warn, write_output};
use msgfmt_words::{Request, parse};
use std::alloc::Global;

/// Delivers what was compiled: the warnings, then FILE, then the statistics.
fn deliver<F: Files, W: Sink, E: Sink>(
    alloc: Global,
    request: &Request<'_>,
    name: &str,
    compiled: &Compiled,
    files: &mut F,
    writer: &mut W,
    errors: &mut E,
) -> Result<(), Cause>
    ensures { Delivers
        (change (files_seen F.content F.written F.failures) files.old files.new)
        (change (output_seen W.contents W.failures) writer.old writer.new)
        (change E.failures errors.old errors.new)
        (asked_in request.now) compiled.now result }
{
    if request.options.checked {
        warn(alloc, name, compiled.header_line, &compiled.missing, errors)?;
    }
    write_output(
        alloc,
        request.output,
        compiled.catalogue.file(),
        files,
        writer,
    )?;
    if request.statistics {
        report(alloc, compiled.stats, errors)?;
    }
    Ok(())
}

/// Does what the arguments ask for.
fn work<F: Files, R: Source, W: Sink, E: Sink>(
    alloc: Global,
    request: &Request<'_>,
    files: &mut F,
    reader: &mut R,
    writer: &mut W,
    errors: &mut E,
) -> Result<(), Cause>
    ensures { Works (record {
      files = change (files_seen F.content F.written F.failures) files.old files.new;
      input = change (input_seen R.remaining R.reads R.failures) reader.old reader.new;
      output = change (output_seen W.contents W.failures) writer.old writer.new;
      error_failures = change E.failures errors.old errors.new;
    }) (asked_in request.now) result }
{
    let Some(name) = request.input else {
        return Err(Cause::NoInput);
    };
    let compiled = compile_input(alloc, name, request.options, files, reader)?;
    deliver(alloc, request, name, &compiled, files, writer, errors)
}

/// Runs a command line, whose first argument is the program's name: reads the PO text INPUT and writes its MO
/// file FILE, or the help text to `writer`. The name `-` means `reader` and `writer`; without a FILE the name is
/// `messages.mo`.
///
/// With `-c` the text is checked, and a warning for each missing header field goes to `errors` before FILE is
/// written; with `--statistics` their line goes there after it. A failure is reported in one line on `errors`;
/// if that can't be written, the status is still that of the failure. At most 67,108,865 bytes are read, from
/// `reader` in at most 134,217,728 reads. If the text is refused, or can't be read, nothing but that line is
/// written.
pub fn run<F: Files, R: Source, W: Sink, E: Sink>(
    alloc: Global,
    words: Vec<String>,
    files: &mut F,
    reader: &mut R,
    writer: &mut W,
    errors: &mut E,
) -> Status
    ensures { Runs (record {
      files = change (files_seen F.content F.written F.failures) files.old files.new;
      input = change (input_seen R.remaining R.reads R.failures) reader.old reader.new;
      output = change (output_seen W.contents W.failures) writer.old writer.new;
      error_failures = change E.failures errors.old errors.new;
    }) (map string_bytes words.items) result }
{
    match parse(alloc, words.as_slice()) {
        Ok(request) => {
            let done = work(alloc, &request, files, reader, writer, errors);
            let input = request.input.unwrap_or("");
            end(alloc, done, input, request.output, errors)
        }
        Err(fault) => {
            let done = answer_words(&fault, writer);
            end(alloc, done, "", "-", errors)
        }
    }
}
