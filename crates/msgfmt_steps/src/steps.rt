//! The steps of a run, in their order.
ghost use Rattle.std.specs.Prelude.{◌≤◌, IfErr, IfOk, OnOk};
ghost use Rattle.devices.specs.Devices.{input_seen, output_seen};
ghost use Rattle.devices.specs.Files.{KeepsLog};
ghost use Rattle.msgfmt_steps.specs.RunDevices.{Reads, TellsAll, Writes, change, files_seen, is_standard};
ghost use Rattle.msgfmt_steps.specs.StepEnds.{EndsReading, EndsTelling, EndsWriting};

use crate::outcome::Cause;
use crate::texts::StatisticsText;
use catalogue_drafts::Stats;
use devices::{FileFault, Files, Sink, Source, read_all};
use po_header::FIELD_NAMES;
use po_text::MAX_TEXT;
use std::alloc::Global;

/// How many bytes of an input are read: one more than a text may have.
pub const MOST_INPUT: usize = MAX_TEXT + 1;

/// The text of INPUT.
pub fn read_input<F: Files, R: Source>(
    alloc: Global,
    name: &str,
    files: &mut F,
    reader: &mut R,
) -> Result<Vec<u8>, Cause>
    ensures read { IfOk result (λ v. Reads (is_standard name.now)
        (files_seen F.content F.written F.failures files.old)
        (change (input_seen R.remaining R.reads R.failures) reader.old reader.new) name.now v.items) }
    ensures fails { IfErr result (EndsReading (is_standard name.now)
        (change (files_seen F.content F.written F.failures) files.old files.new)
        (change (input_seen R.remaining R.reads R.failures) reader.old reader.new)) }
    ensures none_written { KeepsLog (F.written files.old) (F.written files.new) }
    ensures later { F.failures files.old ≤ F.failures files.new }
{
    if name == "-" {
        let text = read_all(alloc, reader, MOST_INPUT)?;
        return Ok(text);
    }
    match files.read(alloc, name, MOST_INPUT) {
        Ok(text) => Ok(text),
        Err(FileFault::Device) => Err(Cause::CannotRead),
        Err(FileFault::Memory) => Err(Cause::Memory),
    }
}

/// Writes a line to the error output.
fn tell<E: Sink>(errors: &mut E, line: &str) -> Result<(), Cause>
    ensures later { E.failures errors.old ≤ E.failures errors.new }
    ensures told { OnOk result (TellsAll (change E.failures errors.old errors.new)) }
    ensures fails { IfErr result (EndsTelling (change E.failures errors.old errors.new)) }
{
    match errors.write_all(line.as_bytes()) {
        Ok(()) => Ok(()),
        Err(_) => Err(Cause::ErrorOutput),
    }
}

/// A warning for each header field that is missing, in the order of `FIELD_NAMES`, at the header's line of INPUT.
#[tactic(auto, using(crate::proofs::Telling::tells_later))]
pub fn warn<E: Sink>(
    alloc: Global,
    name: &str,
    line: u32,
    missing: &[bool; 8],
    errors: &mut E,
) -> Result<(), Cause>
    ensures later { E.failures errors.old ≤ E.failures errors.new }
    ensures told { OnOk result (TellsAll (change E.failures errors.old errors.new)) }
    ensures fails { IfErr result (EndsTelling (change E.failures errors.old errors.new)) }
{
    'fields: for (is_missing, field) in missing.iter().zip(FIELD_NAMES.iter()) {
        if *is_missing {
            let warning = format!(in alloc;
                "{name}:{line}: warning: header field '{field}' missing\n"
            )?;
            tell(errors, warning.as_str())?;
        }
    }
    Ok(())
}

/// Writes FILE.
pub fn write_output<F: Files, W: Sink>(
    alloc: Global,
    name: &str,
    file: &[u8],
    files: &mut F,
    writer: &mut W,
) -> Result<(), Cause>
    ensures written { OnOk result (Writes (is_standard name.now)
        (change (files_seen F.content F.written F.failures) files.old files.new)
        (change (output_seen W.contents W.failures) writer.old writer.new) name.now file.now) }
    ensures fails { IfErr result (EndsWriting (is_standard name.now)
        (change (files_seen F.content F.written F.failures) files.old files.new)
        (change (output_seen W.contents W.failures) writer.old writer.new) name.now) }
{
    if name == "-" {
        writer.write_all(file)?;
        return Ok(());
    }
    match files.write(alloc, name, file) {
        Ok(()) => Ok(()),
        Err(FileFault::Device) => Err(Cause::CannotWrite),
        Err(FileFault::Memory) => Err(Cause::Memory),
    }
}

/// Writes the statistics to the error output.
pub fn report<E: Sink>(alloc: Global, stats: Stats, errors: &mut E) -> Result<(), Cause>
    ensures later { E.failures errors.old ≤ E.failures errors.new }
    ensures told { OnOk result (TellsAll (change E.failures errors.old errors.new)) }
    ensures fails { IfErr result (EndsTelling (change E.failures errors.old errors.new)) }
{
    let text = StatisticsText(stats);
    let line = format!(in alloc; "{text}\n")?;
    tell(errors, line.as_str())
}
