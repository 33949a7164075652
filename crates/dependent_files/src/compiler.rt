//! Compiles a PO text to its MO file.
ghost use Rattle.std.specs.Prelude.{IfOk, IfErr};
ghost use Rattle.std.specs.List.{AllByRecursion};
ghost use Rattle.mo_segments.specs.MessageStrings.{strings_of};
ghost use Rattle.mo_dependent.specs.Splits.{IsSplit};
ghost use Rattle.dependent_files.specs.MessagesFile.{HasNoFile};
ghost use Rattle.dependent_files.specs.TextFiles.{HasFileAny, HasNoFileAny, IsFileOf};

use crate::any::compile_dependent_any;
use crate::fault::FileFault;
use crate::file::{MessagesFile, file_of_messages};
use catalogue::{Catalogue, Stats};
use dependent_po::DependentCompiled;
use po_checks::Options;
use std::alloc::Global;

/// The MO file of a PO text, and its messages as x86-64 Linux has them.
#[derive(Drop)]
pub struct DependentFile {
    /// The file, as GNU msgfmt writes it: of revision 0.0 if no message is system-dependent, and otherwise of revision
    /// 0.1 or 1.1.
    pub file: Vec<u8>,
    /// The messages as the machine has them.
    pub catalogue: Catalogue,
    pub stats: Stats,
    /// Which of the eight fields (`po_header::FIELD_NAMES`) the kept header lacks; all `false` unless `checked` was set
    /// and there is a kept header.
    pub missing: [bool; 8],
    /// The line of the kept header, or 0 if there is none.
    pub header_line: u32,
}

/// The file of what a text compiles to.
fn file_of(alloc: Global, compiled: DependentCompiled) -> Result<DependentFile, FileFault>
    requires { AllByRecursion IsSplit compiled.dependents.items }
    ensures ok { IfOk result (IsFileOf compiled) }
    ensures err { IfErr result (HasNoFile (strings_of compiled.statics.items) compiled.dependents.items) }
{
    let DependentCompiled {
        statics,
        dependents,
        stats,
        missing,
        header_line,
    } = compiled;
    let MessagesFile { file, catalogue } = file_of_messages(alloc, statics, dependents.as_slice())?;
    Ok(DependentFile {
        file,
        catalogue,
        stats,
        missing,
        header_line,
    })
}

/// Compiles a PO text whose C formats may name macros of `<inttypes.h>`, in UTF-8 or in any charset of `charsets`, to
/// its MO file and to the catalogue of its messages as x86-64 Linux has them (GNU gettext manual, "msgfmt Invocation";
/// "c-format").
///
/// The text is compiled and refused as by [`compile_dependent_any`]; for the file and the catalogue see
/// [`file_of_messages`].
pub fn compile_file(
    alloc: Global,
    text: &[u8],
    options: Options,
) -> Result<DependentFile, FileFault>
    ensures ok { IfOk result (HasFileAny text.now options) }
    ensures err { IfErr result (HasNoFileAny text.now options) }
{
    let compiled = compile_dependent_any(alloc, text, options)?;
    file_of(alloc, compiled)
}
