//! A case, as it is written on a line of the file.
use std::alloc::{AllocError, AllocFailed, Global};
use thiserror::Error;

/// Why a case has no answer.
#[derive(Clone, Copy, Debug, PartialEq, Eq, Error)]
pub enum CaseFault {
    #[error("not a case")]
    NotACase,
    #[error("out of memory")]
    Memory,
}

impl From<AllocError> for CaseFault {
    fn from(_error: AllocError) -> CaseFault {
        CaseFault::Memory
    }
}

impl<T: Drop> From<AllocFailed<T>> for CaseFault {
    fn from(_error: AllocFailed<T>) -> CaseFault {
        CaseFault::Memory
    }
}

/// A case, with its fields as they are written.
#[derive(Clone, Copy)]
pub struct Case<'a> {
    /// What is asked about.
    pub kind: &'a str,
    /// What is asked, in one or more fields.
    pub question: &'a str,
    /// The expected answer.
    pub wanted: &'a str,
}

impl<'a> Case<'a> {
    /// The case on a line: a kind, a question and an answer, separated by tabs. None for a comment or an empty line.
    pub fn on_line(line: &'a str) -> Option<Case<'a>> {
        if line.is_empty() || line.starts_with('#') {
            return None;
        }
        let (kind, rest) = line.split_once('\t').unwrap_or((line, ""));
        let (question, wanted) = rest.rsplit_once('\t').unwrap_or((rest, ""));
        Some(Case {
            kind,
            question,
            wanted,
        })
    }
}

/// Splits a question into its two fields, at the last tab.
pub fn two_fields(question: &str) -> Result<(&str, &str), CaseFault> {
    question.rsplit_once('\t').ok_or(CaseFault::NotACase)
}

/// The number in a field.
pub fn number(field: &str) -> Result<u64, CaseFault> {
    match field.parse::<u64>() {
        Ok(number) => Ok(number),
        Err(_) => Err(CaseFault::NotACase),
    }
}

/// Appends what braces spell: `{lf}`, `{tab}` and `{cr}`, a byte in hexadecimal digits such as `{ff}`, or a repeated
/// text such as `{999*ab}`.
fn push_braces(bytes: &mut Vec<u8>, inner: &str) -> Result<(), CaseFault> {
    if let Some((count, text)) = inner.split_once('*') {
        for _ in 0..number(count)? {
            bytes.extend_from_slice(text.as_bytes())?;
        }
        return Ok(());
    }
    let byte = match inner {
        "lf" => b'\n',
        "tab" => b'\t',
        "cr" => b'\r',
        _ => u8::from_str_radix(inner, 16).map_err(|_| CaseFault::NotACase)?,
    };
    bytes.push(byte)?;
    Ok(())
}

/// The bytes that a field spells.
pub fn spelled_bytes(alloc: Global, field: &str) -> Result<Vec<u8>, CaseFault> {
    let mut bytes = Vec::new(alloc);
    let (front, braces) = field.split_once('{').unwrap_or((field, ""));
    bytes.extend_from_slice(front.as_bytes())?;
    if front.len() == field.len() {
        return Ok(bytes);
    }
    for piece in braces.split('{') {
        let (inner, plain) = piece.split_once('}').ok_or(CaseFault::NotACase)?;
        push_braces(&mut bytes, inner)?;
        bytes.extend_from_slice(plain.as_bytes())?;
    }
    Ok(bytes)
}

/// The text that a field spells.
pub fn spelled(alloc: Global, field: &str) -> Result<String, CaseFault> {
    String::from_utf8(spelled_bytes(alloc, field)?).map_err(|_| CaseFault::NotACase)
}
