//! The first byte of a text.
ghost use Rattle.std.specs.Prelude.{◌≡◌, ◌∷◌, MatchOption};
ghost use Rattle.format_arguments.specs.Bytes.{BeginsNot};

use byte_text::split_byte;

/// What follows this byte, if the text begins with it.
pub fn after_byte(text: &[u8], byte: u8) -> Option<&[u8]>
    ensures { MatchOption result (BeginsNot byte text.now) (λ rest. text.now ≡ byte ∷ rest.now) }
{
    let (first, rest) = split_byte(text)?;
    if first == byte { Some(rest) } else { None }
}
