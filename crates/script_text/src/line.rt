//! The lines of a text.
ghost use Rattle.std.specs.Prelude.{◌≡◌, ◌<◌, [], MatchOption, length};
ghost use Rattle.devices.specs.Lines.{lines};
ghost use Rattle.script_text.specs.Scanning.{IsFirstLine, TakesLines};

use byte_text::split_at_byte;

/// The first line of a text, without its LF, and what follows it.
pub(crate) fn split_line(text: &str) -> Option<(&str, &str)>
    ensures { MatchOption result (text.now ≡ []) (λ x. IsFirstLine text.now x.0.now x.1.now) }
{
    if text.is_empty() {
        return None;
    }
    Some(split_at_byte(text, b'\n').unwrap_or((text, "")))
}

/// The first `count` lines of a text, each with its LF, and what follows them.
pub(crate) fn take_lines(text: &str, count: u64) -> Option<(&[u8], &str)>
    ensures { MatchOption result (length (lines text.now) < count) (λ x. TakesLines count text.now x.0.now x.1.now) }
{
    let mut rest = text;
    'lines: for _taken in 0..count {
        let (_, behind) = split_line(rest)?;
        rest = behind;
    }
    let (taken, _) = text.as_bytes().split_at(text.len() - rest.len());
    Some((taken, rest))
}
