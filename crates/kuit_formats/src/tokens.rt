//! Characters of the text, comments, instructions, sections and tags: what comes next in markup.
ghost use Rattle.std.specs.Prelude.{◌≡◌, ◌≤◌, ◌<◌, length, option_map, IfSome};
ghost use Rattle.kuit_formats.specs.KuitTokens as spec;
ghost use Rattle.kuit_formats.specs.KuitReading as reading;

use crate::bytes::{Class, after_mark, after_word, begins_blank, skip_blanks, split_run};
use crate::characters::is_name;
use crate::references::refers_to_none;
use byte_text::split_byte;

/// What comes next in markup, with what follows it.
pub(crate) enum Token<'a> {
    /// a byte of the text, or what stands between others: a comment, an instruction or a section
    Item(&'a [u8]),
    /// `<` and this name; attributes follow
    Start(&'a [u8], &'a [u8]),
    /// an end-tag of this name
    End(&'a [u8], &'a [u8]),
}

fn after_greater(text: &[u8]) -> Option<&[u8]>
    ensures rest { option_map (λ rest. rest.now) result ≡ spec.behind_greater text.now }
    ensures within { IfSome result (λ rest. length rest.now ≤ length text.now) }
{
    match split_byte(text) {
        Some((b'>', rest)) => Some(rest),
        _ => None,
    }
}

/// What follows a comment, read from after its `<!--`.
fn after_comment(text: &[u8]) -> Option<&[u8]>
    ensures rest { option_map (λ rest. rest.now) result ≡ spec.behind_comment text.now }
    ensures within { IfSome result (λ rest. length rest.now ≤ length text.now) }
{
    match after_mark(b"--", text) {
        Some(rest) => after_greater(rest),
        None => None,
    }
}

/// What follows a section, read from after its `<!`.
fn after_section(text: &[u8]) -> Option<&[u8]>
    ensures rest { option_map (λ rest. rest.now) result ≡ spec.behind_section text.now }
    ensures within { IfSome result (λ rest. length rest.now ≤ length text.now) }
{
    match after_word(b"[CDATA[", text) {
        Some(rest) => after_mark(b"]]>", rest),
        None => None,
    }
}

/// What follows a comment or a section, read from after its `<!`.
fn after_declaration(text: &[u8]) -> Option<&[u8]>
    ensures rest { option_map (λ rest. rest.now) result ≡ spec.behind_declaration text.now }
    ensures within { IfSome result (λ rest. length rest.now ≤ length text.now) }
{
    match after_word(b"--", text) {
        Some(rest) => after_comment(rest),
        None => after_section(text),
    }
}

fn is_xml(name: &[u8]) -> bool
    ensures { result ≡ spec.is_xml name.now }
{
    match name {
        [x, m, l] => {
            (*x == b'x' || *x == b'X') && (*m == b'm' || *m == b'M') && (*l == b'l' || *l == b'L')
        }
        _ => false,
    }
}

/// What follows an instruction, read from after its target.
fn after_data(text: &[u8]) -> Option<&[u8]>
    ensures rest { option_map (λ rest. rest.now) result ≡ spec.behind_data text.now }
    ensures within { IfSome result (λ rest. length rest.now ≤ length text.now) }
{
    if begins_blank(text) {
        after_mark(b"?>", text)
    } else {
        after_word(b"?>", text)
    }
}

/// What follows an instruction, read from after its `<?`.
fn after_instruction(text: &[u8]) -> Option<&[u8]>
    ensures rest { option_map (λ rest. rest.now) result ≡ spec.behind_instruction text.now }
    ensures within { IfSome result (λ rest. length rest.now ≤ length text.now) }
{
    let (target, rest) = split_run(Class::Name, text);
    if is_name(target) && !is_xml(target) {
        after_data(rest)
    } else {
        None
    }
}

fn read_start(text: &[u8]) -> Option<Token<'_>>
    ensures token { option_map reading.token_view result ≡ spec.start text.now }
    ensures within { IfSome result (λ token. length (reading.token_rest token) ≤ length text.now) }
{
    let (name, rest) = split_run(Class::Name, text);
    if is_name(name) {
        Some(Token::Start(name, rest))
    } else {
        None
    }
}

fn read_end(text: &[u8]) -> Option<Token<'_>>
    ensures token { option_map reading.token_view result ≡ spec.end text.now }
    ensures within { IfSome result (λ token. length (reading.token_rest token) ≤ length text.now) }
{
    let (name, rest) = split_run(Class::Name, text);
    if !is_name(name) {
        return None;
    }
    match after_greater(skip_blanks(rest)) {
        Some(rest) => Some(Token::End(name, rest)),
        None => None,
    }
}

/// Reads an instruction from after its `<?`.
fn read_instruction(text: &[u8]) -> Option<Token<'_>>
    ensures token { option_map reading.token_view result ≡ spec.item (spec.behind_instruction text.now) }
    ensures within { IfSome result (λ token. length (reading.token_rest token) ≤ length text.now) }
{
    match after_instruction(text) {
        Some(rest) => Some(Token::Item(rest)),
        None => None,
    }
}

/// Reads a comment or a section from after its `<!`.
fn read_declaration(text: &[u8]) -> Option<Token<'_>>
    ensures token { option_map reading.token_view result ≡ spec.item (spec.behind_declaration text.now) }
    ensures within { IfSome result (λ token. length (reading.token_rest token) ≤ length text.now) }
{
    match after_declaration(text) {
        Some(rest) => Some(Token::Item(rest)),
        None => None,
    }
}

/// Reads what begins with `<`, from after it.
fn read_markup(text: &[u8]) -> Option<Token<'_>>
    ensures token { option_map reading.token_view result ≡ spec.markup text.now }
    ensures within { IfSome result (λ token. length (reading.token_rest token) ≤ length text.now) }
{
    match split_byte(text) {
        Some((b'/', rest)) => read_end(rest),
        Some((b'?', rest)) => read_instruction(rest),
        Some((b'!', rest)) => read_declaration(rest),
        _ => read_start(text),
    }
}

/// Whether a byte of the text stands for itself, given what follows it.
fn is_plain(byte: u8, after: &[u8]) -> bool
    ensures { result ≡ spec.is_plain byte after.now }
{
    match byte {
        b'&' => !refers_to_none(after),
        b']' => !after.starts_with(b"]>"),
        _ => true,
    }
}

/// Reads what comes next.
pub(crate) fn read_token(text: &[u8]) -> Option<Token<'_>>
    ensures token { option_map reading.token_view result ≡ spec.token text.now }
    ensures within { IfSome result (λ token. length (reading.token_rest token) < length text.now) }
{
    match split_byte(text) {
        Some((b'<', rest)) => read_markup(rest),
        Some((byte, rest)) => if is_plain(byte, rest) {
            Some(Token::Item(rest))
        } else {
            None
        },
        None => None,
    }
}
