//! The entries of a PO text as answers print them, such as `2: fuzzy msgctxt "k" msgid "a" msgstr "b"`.
ghost use Rattle.std.specs.Prelude.{◌<◌, length};

use crate::case::CaseFault;
use po_text::{EntryBuffer, PoEntry, PoFault, PoKind, open_text, read_po};
use std::alloc::{AllocError, Global};

/// What is printed before the forms of an entry.
#[derive(Drop)]
struct Front<'a> {
    line: u32,
    fuzzy: bool,
    c_format: bool,
    context: Option<&'a str>,
    id: &'a str,
    plural: Option<&'a str>,
}

/// Appends the front of an entry, after a separator if it isn't the first.
fn push_front(answer: &mut String, front: &Front) -> Result<(), AllocError> {
    if !answer.is_empty() {
        answer.push_str("; ")?;
    }
    write!(answer, "{}:", front.line)?;
    if front.fuzzy {
        answer.push_str(" fuzzy")?;
    }
    if front.c_format {
        answer.push_str(" c-format")?;
    }
    if let Some(context) = front.context {
        write!(answer, " msgctxt \"{context}\"")?;
    }
    write!(answer, " msgid \"{}\"", front.id)?;
    if let Some(plural) = front.plural {
        write!(answer, " msgid_plural \"{plural}\"")?;
    }
    answer.push_str(" msgstr")
}

/// Appends an entry.
fn push_entry(answer: &mut String, entry: &PoEntry) -> Result<(), AllocError> {
    let front = Front {
        line: entry.line,
        fuzzy: entry.fuzzy,
        c_format: entry.c_format,
        context: entry.context.as_deref(),
        id: entry.id.as_str(),
        plural: entry.plural.as_deref(),
    };
    push_front(answer, &front)?;
    for form in &entry.forms {
        write!(answer, " \"{form}\"")?;
    }
    Ok(())
}

/// Appends the entry in a buffer.
fn push_buffer(answer: &mut String, buffer: &EntryBuffer) -> Result<(), AllocError> {
    let front = Front {
        line: buffer.line(),
        fuzzy: buffer.is_fuzzy(),
        c_format: buffer.is_c_format(),
        context: buffer.context(),
        id: buffer.id(),
        plural: buffer.plural(),
    };
    push_front(answer, &front)?;
    for k in 0..buffer.form_count() {
        write!(answer, " \"{}\"", buffer.form(k))?;
    }
    Ok(())
}

/// The answer for a fault.
fn told(alloc: Global, fault: PoFault) -> Result<String, CaseFault> {
    match fault.kind {
        PoKind::Memory => Err(CaseFault::Memory),
        _ => Ok(fault.to_string(alloc)?),
    }
}

/// The entries of a text, read by one call, or its fault.
pub fn read_together(alloc: Global, text: &[u8]) -> Result<String, CaseFault> {
    let mut answer = String::new(alloc);
    match read_po(alloc, text) {
        Ok(entries) => {
            for entry in &entries {
                push_entry(&mut answer, entry)?;
            }
            Ok(answer)
        }
        Err(fault) => told(alloc, fault),
    }
}

/// The entries of a text, read one at a time, or its fault.
pub fn read_singly(alloc: Global, text: &[u8]) -> Result<String, CaseFault> {
    let mut answer = String::new(alloc);
    let mut reader = match open_text(alloc, text) {
        Ok(reader) => reader,
        Err(fault) => return told(alloc, fault),
    };
    let mut buffer = EntryBuffer::new(alloc);
    // Each entry has at least one byte, so this many rounds suffice.
    for _ in 0..text.len().saturating_add(1) {
        match reader.next_entry(&mut buffer) {
            Ok(true) => push_buffer(&mut answer, &buffer)?,
            Ok(false) => return Ok(answer),
            Err(fault) => return told(alloc, fault),
        }
    }
    Err(CaseFault::NotACase)
}
