//! The charset that a name means.
ghost use Rattle.std.specs.Prelude.{◌↔◌, IsTrue, MatchOption};
ghost use Rattle.charsets.specs.Naming.{IsNameOf, IsSameName};

use crate::kinds::{Charset, all};
use crate::names::names;

/// Whether two names differ in ASCII case alone.
fn is_same(known: &[u8], name: &[u8]) -> bool
    ensures { IsTrue result ↔ IsSameName known.now name.now }
{
    known.eq_ignore_ascii_case(name)
}

/// Whether this is a name of the charset, in any ASCII case.
fn is_name_of(charset: Charset, name: &[u8]) -> bool
    ensures { IsTrue result ↔ IsNameOf charset name.now }
{
    'names: for (i, known) in names(charset).iter().enumerate() {
        if is_same(*known, name) {
            return true;
        }
    }
    false
}

/// The charset that has this name, if there is one: a name that GNU gettext calls portable (GNU gettext manual, "Header
/// Entry"), or another one that iconv of GNU libc has for such a charset. ASCII case doesn't matter.
pub fn charset_of(name: &[u8]) -> Option<Charset>
    ensures { MatchOption result ((charset : Charset) → ¬ IsNameOf charset name.now)
        (λ charset. IsNameOf charset name.now) }
{
    'charsets: for (i, charset) in all().iter().enumerate() {
        if is_name_of(*charset, name) {
            return Some(*charset);
        }
    }
    None
}
