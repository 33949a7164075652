//! Whether the front of a text leads into its header.
ghost use Rattle.std.specs.Prelude.{◌≡◌, ◌∷◌, [], ◌<◌, ◌↔◌, IsTrue, IfSome, length};
ghost use Rattle.any_charset.specs.Declaring.{is_gap, is_header_msgid, lines, stage_after, stage_behind};
ghost use Rattle.any_charset.specs.LineRest.{lines_left};

use byte_text::offset_of;

/// How far some lines at the front of a text lead.
#[derive(Clone, Copy, Debug, PartialEq, Eq)]
pub enum Stage {
    /// After comments and empty lines alone.
    Before,
    /// After the line `msgid ""`.
    AfterMsgid,
    /// Between the strings of the header's msgstr.
    InHeader,
    /// Anywhere else.
    Elsewhere,
}

/// The first line of a text, and the other lines if there are any.
pub(crate) fn split_line(text: &[u8]) -> (&[u8], Option<&[u8]>)
    ensures lines { lines text.now ≡ result.0.now ∷ lines_left result.1 }
    ensures shorter { IfSome result.1 (λ later. length later.now < length text.now) }
{
    let at = offset_of(text, b'\n');
    if at < text.len() {
        (&text[..at], Some(&text[at + 1..]))
    } else {
        (text, None)
    }
}

/// Whether a line is empty, but for a CR, or a comment.
fn is_gap(line: &[u8]) -> bool
    ensures { result ≡ is_gap line.now }
{
    line.is_empty() || line == b"\r".as_slice() || line.starts_with(b"#")
}

/// Whether a line is that of the header's msgid, which may end with a CR.
fn is_header_msgid(line: &[u8]) -> bool
    ensures { result ≡ is_header_msgid line.now }
{
    line == b"msgid \"\"".as_slice() || line == b"msgid \"\"\r".as_slice()
}

/// The stage that a line leads to from another.
fn stage_behind(stage: Stage, line: &[u8]) -> Stage
    ensures { result ≡ stage_behind stage line.now }
{
    match stage {
        Stage::Before if is_gap(line) => Stage::Before,
        Stage::Before if is_header_msgid(line) => Stage::AfterMsgid,
        Stage::AfterMsgid if line.starts_with(b"msgstr \"") => Stage::InHeader,
        Stage::InHeader if line.starts_with(b"\"") => Stage::InHeader,
        _ => Stage::Elsewhere,
    }
}

/// The stage that the lines of a text lead to.
fn stage_after(text: &[u8]) -> Stage
    ensures { result ≡ stage_after Stage.Before (lines text.now) }
{
    let mut stage = Stage::Before;
    let mut rest = text;
    'lines: loop {
        let (line, later) = split_line(rest);
        stage = stage_behind(stage, line);
        let Some(next) = later else { return stage };
        rest = next;
    }
}

/// Whether a text leads into the header's msgstr.
pub(crate) fn leads_into_header(text: &[u8]) -> bool
    ensures { IsTrue result ↔ (stage_after Stage.Before (lines text.now) ≡ Stage.InHeader) }
{
    matches!(stage_after(text), Stage::InHeader)
}
