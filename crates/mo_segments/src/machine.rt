//! What the segments of system-dependent strings stand for on x86-64 Linux (C standard, 7.8.1).
ghost use Rattle.std.specs.Prelude.{◌≡◌, ◌++◌, option_map, OnOk, IsTrue};
ghost use Rattle.std.specs.Str.{bytes_eq};
ghost use Rattle.mo_segments.specs.Machine.{is_plain, is_long, value, value_text};

use std::alloc::AllocError;

/// What a segment stands for: a conversion or a flag, behind an `l` if the macro's type is `long`.
#[derive(Clone, Copy, Debug, PartialEq, Eq)]
pub struct Value {
    long: bool,
    letter: u8,
}

impl Value {
    /// Appends the value to a text.
    pub fn push_to(self, text: &mut Vec<u8>) -> Result<(), AllocError>
        ensures { OnOk result (text.new.items ≡ text.old.items ++ value_text self) }
    {
        if self.long {
            text.push(b'l')?;
        }
        text.push(self.letter)?;
        Ok(())
    }
}

/// Whether two texts are the same.
fn is(text: &[u8], other: &[u8]) -> bool
    ensures { result ≡ bytes_eq text.now other.now }
{
    text == other
}

/// Whether a macro of this size stands for the letter alone: its type has at most 32 bits.
fn is_plain(size: &[u8]) -> bool
    ensures { result ≡ is_plain size.now }
{
    is(size, b"8")
        || is(size, b"16")
        || is(size, b"32")
        || is(size, b"LEAST8")
        || is(size, b"LEAST16")
        || is(size, b"LEAST32")
        || is(size, b"FAST8")
}

/// Whether a macro of this size stands for `l` and the letter: its type has 64 bits.
fn is_long(size: &[u8]) -> bool
    ensures { result ≡ is_long size.now }
{
    is(size, b"64")
        || is(size, b"LEAST64")
        || is(size, b"FAST16")
        || is(size, b"FAST32")
        || is(size, b"FAST64")
        || is(size, b"MAX")
        || is(size, b"PTR")
}

/// What a segment of this name stands for: a macro `PRIxN`, or the flag `I`, which glibc's printf knows. None if the
/// name is not known.
pub fn value_of(name: &[u8]) -> Option<Value>
    ensures { option_map value_text result ≡ value name.now }
{
    if is(name, b"I") {
        return Some(Value {
            long: false,
            letter: b'I',
        });
    }
    if name.len() < 4 || !is(&name[..3], b"PRI") || !b"diouxX".contains(&name[3]) {
        return None;
    }
    let letter = name[3];
    let size = &name[4..];
    if is_plain(size) {
        return Some(Value {
            long: false,
            letter,
        });
    }
    if is_long(size) {
        return Some(Value { long: true, letter });
    }
    None
}
