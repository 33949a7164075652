//! The lines that a run writes.
ghost use Rattle.std.specs.Prelude.{◌≡◌, ◌≢◌, ◌++◌, Err, IfOk, OnOk, string_bytes};
ghost use Rattle.catserve.specs.Output.{escape, escaped_text, version_line, answer_line};
ghost use Rattle.catserve.specs.Running.{IsLineOf};

use bstr::ByteSlice;
use desks::Accepted;
use live_versions::{StoreFault, mo_number, po_number};
use std::alloc::{AllocError, Global};

/// Writes a byte of a text with escapes.
fn write_byte(output: &mut Vec<u8>, byte: u8) -> Result<(), AllocError>
    ensures { OnOk result (output.new.items ≡ output.old.items ++ escape byte) }
{
    match byte {
        b'\n' => output.extend_from_slice(b"\\n"),
        b'\t' => output.extend_from_slice(b"\\t"),
        b'\\' => output.extend_from_slice(b"\\\\"),
        plain => Ok(output.push(plain)?),
    }
}

/// Writes a text with its escapes.
fn write_escaped(output: &mut Vec<u8>, text: &str) -> Result<(), AllocError>
    ensures { OnOk result (output.new.items ≡ output.old.items ++ escaped_text text.now) }
{
    let mut rest = text.as_bytes();
    'runs: while let Some(at) = rest.find_byteset(b"\n\t\\") {
        output.extend_from_slice(&rest[..at])?;
        write_byte(output, rest[at])?;
        rest = &rest[at + 1..];
    }
    output.extend_from_slice(rest)
}

/// Writes a text as it is.
fn write_text(output: &mut Vec<u8>, text: &str) -> Result<(), AllocError>
    ensures { OnOk result (output.new.items ≡ output.old.items ++ text.now) }
{
    output.extend_from_slice(text.as_bytes())
}

/// The line of a load. Memory may also have run out in the load.
pub(crate) fn load_line(
    alloc: Global,
    made: Result<Accepted, StoreFault>,
) -> Result<String, AllocError>
    requires { made ≢ Err StoreFault.VersionsSpent }
    ensures { IfOk result (λ line. IsLineOf made (string_bytes line)) }
{
    match made {
        Ok(Accepted::Po(stats)) => {
            let (translated, fuzzy) = (stats.translated, stats.fuzzy);
            let untranslated = stats.untranslated;
            let line = format!(in alloc; "accepted\t{translated}\t{fuzzy}\t{untranslated}\n")?;
            Ok(line)
        }
        Ok(Accepted::Mo(entries)) => format!(in alloc; "accepted-mo\t{entries}\n"),
        Err(StoreFault::BadName) => String::from_str(alloc, "refused\tname\n"),
        Err(StoreFault::Refused(fault)) => {
            let (number, at) = (po_number(fault.kind), fault.line);
            let line = format!(in alloc; "refused\t{number}\t{at}\n")?;
            Ok(line)
        }
        Err(StoreFault::RefusedMo(fault)) => {
            let number = mo_number(fault);
            format!(in alloc; "refused-mo\t{number}\n")
        }
        Err(StoreFault::VersionsSpent) => unreachable!(),
        Err(StoreFault::Memory) => Err(AllocError),
    }
}

/// Writes the line of what a round published.
pub(crate) fn write_version(
    alloc: Global,
    output: &mut Vec<u8>,
    version: u64,
) -> Result<(), AllocError>
    ensures { OnOk result (output.new.items ≡ output.old.items ++ version_line version) }
{
    let line = format!(in alloc; "version\t{version}\n")?;
    write_text(output, line.as_str())
}

/// Writes the line of an answer.
pub(crate) fn write_answer(
    alloc: Global,
    output: &mut Vec<u8>,
    worker: u32,
    version: u64,
    text: &str,
) -> Result<(), AllocError>
    ensures { OnOk result (output.new.items ≡ output.old.items ++ answer_line worker version text.now) }
{
    let front = format!(in alloc; "{worker}\t{version}\t")?;
    write_text(output, front.as_str())?;
    write_escaped(output, text)?;
    write_text(output, "\n")
}
