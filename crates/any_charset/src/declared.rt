//! The charset that a text declares in its header.
ghost use Rattle.std.specs.Prelude.{◌≡◌, ◌≤◌, ◌+◌, ◌++◌, IfOk, IfSome, MatchOption, codes, length};
ghost use Rattle.any_charset.specs.Declaring.{Declares, DeclaresNone, NamesAt, NamesNone, is_name_byte, name_len};

use crate::front::leads_into_header;
use charsets::{Charset, charset_of};
use memchr::memmem;
use std::alloc::{AllocError, Global};

const MARK: &[u8] = b"charset=";

/// The name that takes the place of a charset's.
const UTF8: &[u8] = b"UTF-8";

/// A charset that a text names, and the text around its name.
#[derive(Drop)]
pub struct Declaration<'a> {
    /// Where `charset=` begins.
    pub at: usize,
    pub charset: Charset,
    /// The text up to the name.
    pub before: &'a [u8],
    /// The text after the name.
    pub after: &'a [u8],
}

impl<'a> Declaration<'a> {
    /// The text with `UTF-8` in place of the charset's name.
    pub fn renamed(&self, alloc: Global) -> Result<Vec<u8>, AllocError>
        ensures { IfOk result (λ renamed. renamed.items ≡ self.now.before.now ++ codes "UTF-8" ++ self.now.after.now) }
    {
        let mut text = Vec::new(alloc);
        text.extend_from_slice(self.before)?;
        text.extend_from_slice(UTF8)?;
        text.extend_from_slice(self.after)?;
        Ok(text)
    }
}

fn is_name_byte(byte: u8) -> bool
    ensures { result ≡ is_name_byte byte }
{
    !matches!(byte, b' ' | b'\t' | b'\n' | b'\\' | b'"')
}

/// The length of the name that a text begins with.
fn name_len(text: &[u8]) -> usize
    ensures len { result ≡ name_len text.now }
    ensures within { result ≤ length text.now }
{
    text.iter().take_while(|byte| is_name_byte(**byte)).count()
}

/// The charset that the first `charset=` of a text names, if it is a charset of `charsets`.
pub fn named(text: &[u8]) -> Option<Declaration<'_>>
    ensures within { IfSome result (λ d. d.at ≤ length text.now) }
    ensures short { IfSome result (λ d. length d.before.now + length d.after.now ≤ length text.now) }
    ensures names { MatchOption result (NamesNone text.now)
        (λ d. NamesAt text.now d.at d.charset (d.before.now ++ codes "UTF-8" ++ d.after.now)) }
{
    let at = memmem::find(text, MARK)?;
    let (before, named) = text.split_at(at + MARK.len());
    let (name, after) = named.split_at(name_len(named));
    let charset = charset_of(name)?;
    Some(Declaration {
        at,
        charset,
        before,
        after,
    })
}

/// The charset that a text declares in the header at its front, if it is a charset of `charsets`.
pub(crate) fn declared(text: &[u8]) -> Option<Declaration<'_>>
    ensures short { IfSome result (λ d. length d.before.now + length d.after.now ≤ length text.now) }
    ensures declares { MatchOption result (DeclaresNone text.now)
        (λ d. Declares text.now d.charset (d.before.now ++ codes "UTF-8" ++ d.after.now)) }
{
    let named = named(text)?;
    if leads_into_header(&text[..named.at]) {
        Some(named)
    } else {
        None
    }
}
