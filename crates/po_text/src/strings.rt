//! The bytes of the last string read, borrowed or decoded.
ghost use Rattle.std.specs.Prelude.{◌≡◌, ◌<◌, ◌↔◌, ◌∷◌, [], length, IfOk, IfErr, IsTrue};
ghost use Rattle.po_text.specs.Ends.{EndsText};
ghost use Rattle.po_text.specs.Clean.{IsClean, bytes_of};
ghost use Rattle.po_text.specs.Spelling.{IsLawful, UnitsAt};

use crate::fault::PoKind;
use crate::plain::are_simple;
use crate::units::{clean_run, read_units};
use byte_text::split_byte;
use simdutf8::is_utf8;
use std::alloc::Global;

/// The bytes of the last string read. A string of clean bytes alone is borrowed from the text; any other is decoded
/// into a reused buffer.
#[derive(Drop)]
pub(crate) struct StringBytes<'a> {
    plain: Option<&'a [u8]>,
    decoded: Vec<u8>,
    /// Whether the bytes are known to have neither NUL nor byte 4, and to be UTF-8 if the text is.
    is_clean: bool,
    ghost clean: { IsTrue is_clean → IsClean (bytes_of plain decoded.items) },
}

/// Whether a string may contain these bytes: they are UTF-8 without NUL.
fn is_lawful(bytes: &[u8]) -> bool
    ensures { IsTrue result ↔ IsLawful bytes.now }
{
    are_simple(bytes) || (!bytes.contains(&0) && is_utf8(bytes))
}

impl<'a> StringBytes<'a> {
    ghost use Rattle.po_text.specs.Lexing.{HoldsLawful, UnitsFail, string_of};
    ghost use Rattle.po_text.specs.Stages.{has_four};

    /// An empty string; allocates nothing.
    pub(crate) fn new(alloc: Global) -> StringBytes<'a> {
        StringBytes {
            plain: None,
            decoded: Vec::new(alloc),
            is_clean: false,
        }
    }

    /// The string's bytes.
    pub(crate) fn as_slice(&self) -> &[u8]
        ensures { result.now ≡ string_of self.now }
    {
        match self.plain {
            Some(plain) => plain,
            None => &self.decoded,
        }
    }

    /// Reads the units of a string and its closing quote, from after the opening one; returns what follows them.
    #[inline(always)]
    pub(crate) fn read(&mut self, inner: &'a [u8]) -> Result<&'a [u8], PoKind>
        ensures ok { IfOk result (λ rest. UnitsAt (string_of self.new) inner.now (34 ∷ rest.now)) }
        ensures shorter { IfOk result (λ rest. length rest.now < length inner.now) }
        ensures err { IfErr result (λ kind. UnitsFail kind inner.now) }
        ensures lawful { EndsText (34 ∷ inner.now) → HoldsLawful self.new }
    {
        let (run, after) = clean_run(inner);
        if let Some((b'"', rest)) = split_byte(after) {
            self.plain = Some(run);
            self.is_clean = true;
            return Ok(rest);
        }
        self.is_clean = false;
        self.plain = None;
        self.decoded.clear();
        self.decoded.extend_from_slice(run)?;
        let (rest, is_clean) = read_units(after, &mut self.decoded)?;
        self.is_clean = is_clean;
        Ok(rest)
    }

    /// Whether a string may contain these bytes.
    #[inline(always)]
    pub(crate) fn is_lawful(&self) -> bool
        requires { HoldsLawful self.now }
        ensures { IsTrue result ↔ IsLawful (string_of self.now) }
    {
        self.is_clean || is_lawful(self.as_slice())
    }

    /// Whether one of the bytes is 4.
    pub(crate) fn has_four(&self) -> bool
        ensures { result ≡ has_four (string_of self.now) }
    {
        !self.is_clean && self.as_slice().contains(&4)
    }
}
