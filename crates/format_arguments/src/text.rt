//! Plain text between directives.
ghost use Rattle.std.specs.Prelude.{[], ◌∷◌, MatchOption};
ghost use Rattle.format_arguments.specs.Text.{SkipsPlain};

use memchr::memchr;

/// What follows the next byte that begins a directive, if there is one.
pub fn next_directive(text: &[u8], mark: u8) -> Option<&[u8]>
    ensures { MatchOption result (SkipsPlain mark text.now [])
        (λ rest. SkipsPlain mark text.now (mark ∷ rest.now)) }
{
    let offset = memchr(mark, text)?;
    Some(&text[offset + 1..])
}
