//! The lexer: splits a text into tokens, and skips the white space and comments between them.
//!
//! All of it that most tokens need is inlined into the parser's loop, since a call costs more than such a token.
ghost use Rattle.std.specs.Prelude.{◌≡◌, ℕ, ◌+◌, ◌-◌, ◌*◌, ◌<◌, ◌≤◌, ◌^◌, ◌↔◌, ◌⊎◌, ◌++◌};
ghost use Rattle.std.specs.Prelude.{◌∷◌, [], List, Bool, length, IfOk, IfErr, IfSome, IsTrue, MatchOption, false};
ghost use Rattle.std.specs.List.{prefix_len, slice_split, take_while};
ghost use Rattle.po_text.specs.Building.{flags_over};
ghost use Rattle.po_text.specs.declared.flags.Flags.{Flags as Bits};
ghost use Rattle.po_text.specs.Lexing.{is_no_separator, word_view, token_view, IsLawfulToken, StopsGap};
ghost use Rattle.po_text.specs.Spelling.{comment_marks, flag_mark, is_separator, is_white, is_word_byte};
ghost use Rattle.po_text.specs.Spelling.{is_not_line_end, word_token, number_of, IsLawful, PieceAt};
ghost use Rattle.po_text.specs.Spelling.{Word, Quoted, FaultAt};
ghost use Rattle.po_text.specs.Spelling as spec;
ghost use Rattle.po_text.specs.Lexing.{TakesGap, TakesToken, string_of, HasNext, HasEnd, HasFaultFrom};
ghost use Rattle.po_text.specs.Ends.{EndsText};
ghost use Rattle.po_text.specs.Faults.{out_of_memory};
ghost use Rattle.po_text.specs.declared.fault.PoKind.TheVariants.{BadWord, Memory};

use crate::fault::{PoFault, PoKind};
use crate::flags::{Flags, comment_flags};
use crate::scan::{is_white_byte, split_line};
use crate::strings::StringBytes;
use crate::words::word_len;
use byte_text::split_byte;

/// A token; the bytes of a string are kept in a `StringBytes`.
#[derive(Clone, Copy)]
pub(crate) enum Token {
    Context,
    Id,
    Plural,
    Str,
    Number(u32),
    Open,
    Close,
    Text,
}

/// The rest of a text, its line, and the flags collected since the last opening keyword.
#[derive(Drop)]
pub(crate) struct Lexer<'a> {
    pub(crate) rest: &'a [u8],
    pub(crate) line: u32,
    pub(crate) flags: Flags,
    ghost ends: { EndsText rest.now },
}

/// The number that a word spells, if it is one to nine decimal digits.
fn number(word: &[u8]) -> Option<Token>
    ensures { (bytes : List ℕ) → word_view result bytes ≡ number_of word.now }
{
    if word.is_empty() || 9 < word.len() {
        return None;
    }
    let mut value: u32 = 0;
    for digit in word {
        if !digit.is_ascii_digit() {
            return None;
        }
        value = value * 10 + u32::from(*digit - b'0');
    }
    Some(Token::Number(value))
}

/// The token that a word spells, if it is a keyword or a number.
fn token_of(word: &[u8]) -> Option<Token>
    ensures { (bytes : List ℕ) → word_view result bytes ≡ word_token word.now }
{
    if word == b"msgctxt".as_slice() {
        Some(Token::Context)
    } else if word == b"msgid".as_slice() {
        Some(Token::Id)
    } else if word == b"msgid_plural".as_slice() {
        Some(Token::Plural)
    } else if word == b"msgstr".as_slice() {
        Some(Token::Str)
    } else {
        number(word)
    }
}

/// Reads the keyword or number at the front; any other word, or none, is a `BadWord`.
fn read_any_word(text: &[u8]) -> Result<(Token, &[u8]), PoKind>
    ensures ok { IfOk result (λ x. (token : spec.Token)
        × PieceAt (Word (take_while is_word_byte text.now) token) text.now x.1.now
        × ((bytes : List ℕ) → token_view x.0 bytes ≡ token)) }
    ensures shorter { IfOk result (λ x. length x.1.now < length text.now) }
    ensures err { IfErr result (λ kind.
        (kind ≡ BadWord) × (word_token (take_while is_word_byte text.now) ≡ None)) }
{
    let (word, rest) = text.split_at(word_len(text));
    if word.is_empty() {
        return Err(PoKind::BadWord);
    }
    match token_of(word) {
        Some(token) => Ok((token, rest)),
        None => Err(PoKind::BadWord),
    }
}

/// Reads the keyword or number at the front; any other word, or none, is a `BadWord`. The keywords of nearly all
/// entries are recognized without a search for their end.
#[inline(always)]
fn read_word(text: &[u8]) -> Result<(Token, &[u8]), PoKind>
    ensures ok { IfOk result (λ x. (token : spec.Token)
        × PieceAt (Word (take_while is_word_byte text.now) token) text.now x.1.now
        × ((bytes : List ℕ) → token_view x.0 bytes ≡ token)) }
    ensures shorter { IfOk result (λ x. length x.1.now < length text.now) }
    ensures err { IfErr result (λ kind.
        (kind ≡ BadWord) × (word_token (take_while is_word_byte text.now) ≡ None)) }
{
    if let [b'm', b's', b'g', b'i', b'd', b' ', ..] = text {
        return Ok((Token::Id, &text[5..]));
    }
    if let [b'm', b's', b'g', b's', b't', b'r', b' ', ..] = text {
        return Ok((Token::Str, &text[6..]));
    }
    read_any_word(text)
}

/// Reads a string, from after its opening quote to its closing one.
#[inline(always)]
fn read_string<'a>(inner: &'a [u8], bytes: &mut StringBytes<'a>) -> Result<&'a [u8], PoKind>
    requires { EndsText (34 ∷ inner.now) }
    ensures ok { IfOk result (λ rest. PieceAt (Quoted (string_of bytes.new)) (34 ∷ inner.now) rest.now) }
    ensures shorter { IfOk result (λ rest. length rest.now < length inner.now) }
    ensures err { IfErr result (λ kind. (kind ≡ Memory) ⊎ FaultAt kind (34 ∷ inner.now)) }
{
    let rest = bytes.read(inner)?;
    if !bytes.is_lawful() {
        return Err(PoKind::BadText);
    }
    Ok(rest)
}

/// Reads the token at the front.
#[inline(always)]
fn read_token<'a>(text: &'a [u8], bytes: &mut StringBytes<'a>) -> Result<(Token, &'a [u8]), PoKind>
    requires ends { EndsText text.now }
    requires some { 0 < length text.now }
    requires no_gap { StopsGap text.now }
    ensures ok { IfOk result (λ x. TakesToken x.0 (string_of bytes.new) text.now x.1.now) }
    ensures lawful { IfOk result (λ x. IsLawfulToken (token_view x.0 (string_of bytes.new))) }
    ensures shorter { IfOk result (λ x. length x.1.now < length text.now) }
    ensures err { IfErr result (λ kind. (kind ≡ Memory) ⊎ FaultAt kind text.now) }
{
    let Some((byte, later)) = split_byte(text) else {
        unreachable!()
    };
    if byte == b'"' {
        let rest = read_string(later, bytes)?;
        Ok((Token::Text, rest))
    } else if byte == b'[' {
        Ok((Token::Open, later))
    } else if byte == b']' {
        Ok((Token::Close, later))
    } else {
        read_word(text)
    }
}

/// Skips a gap that is one byte, as most are between two tokens of an entry: a blank before a string, or a line's end.
#[inline(always)]
fn skip_one<'a>(text: &'a [u8], line: &mut u32) -> Option<&'a [u8]>
    requires { line.old + length text.now < 2 ^ 32 }
    ensures none { result ≡ None → line.new ≡ line.old }
    ensures gap { IfSome result (λ rest. (flags : Bits) →
        TakesGap flags line.old text.now flags line.new rest.now) }
    ensures stops { IfSome result (λ rest. StopsGap rest.now) }
{
    let (byte, later) = split_byte(text)?;
    let (next, _) = split_byte(later)?;
    if next != b'"' && next != b'm' {
        return None;
    }
    if byte == b' ' {
        return Some(later);
    }
    if byte == b'\n' {
        *line += 1;
        return Some(later);
    }
    None
}

/// Skips the white space and comments at the front, counting lines and collecting flags; returns what follows.
#[inline(always)]
fn gap_end<'a>(text: &'a [u8], line: &mut u32, flags: &mut Flags) -> &'a [u8]
    requires { line.old + length text.now < 2 ^ 32 }
    ensures gap { TakesGap flags.old line.old text.now flags.new line.new result.now }
    ensures stops { StopsGap result.now }
{
    if let Some(rest) = skip_one(text, line) {
        return rest;
    }
    let mut rest = text;
    'gap: while let Some((byte, later)) = split_byte(rest) {
        if byte == b'\n' {
            *line += 1;
            rest = later;
        } else if is_white_byte(byte) {
            rest = later;
        } else if byte == b'#' {
            let (comment, after) = split_line(later);
            comment_flags(comment, flags);
            rest = after;
        } else {
            return rest;
        }
    }
    rest
}

impl<'a> Lexer<'a> {
    ghost use Rattle.po_text.specs.Building.{no_flags};
    ghost use Rattle.po_text.specs.Lexing.{TakesLexemes};
    ghost use Rattle.po_text.specs.Spelling.{HasFault, Lexeme, Spells};

    /// A lexer at the start of a text.
    pub(crate) fn new(text: &'a [u8]) -> Lexer<'a>
        requires { EndsText text.now }
        ensures rest { result.rest.now ≡ text.now }
        ensures line { result.line ≡ 1 }
        ensures flags { result.flags ≡ no_flags }
    {
        Lexer {
            rest: text,
            line: 1,
            flags: Flags::NONE,
        }
    }

    /// Skips to the next token and reads it, leaving its line in `line`; None at the end of the text.
    #[inline(always)]
    pub(crate) fn next_token(
        &mut self,
        bytes: &mut StringBytes<'a>,
    ) -> Result<Option<Token>, PoFault>
        requires { self.old.line + length self.old.rest.now < 2 ^ 32 }
        ensures next { IfOk result (λ found. MatchOption found
            (HasEnd self.old.flags self.old.line self.old.rest.now)
            (λ token. HasNext token (string_of bytes.new) self.old.flags self.old.line self.old.rest.now
            self.new.flags self.new.line self.new.rest.now)) }
        ensures lawful { IfOk result (λ found.
            IfSome found (λ token. IsLawfulToken (token_view token (string_of bytes.new)))) }
        ensures room { IfOk result (λ _.
            self.new.line + length self.new.rest.now ≤ self.old.line + length self.old.rest.now) }
        ensures falls { IfOk result (λ _. length self.new.rest.now ≤ length self.old.rest.now) }
        ensures err { IfErr result (λ fault. (fault ≡ out_of_memory)
            ⊎ HasFaultFrom self.old.flags self.old.line self.old.rest.now fault.kind fault.line) }
    {
        let text = gap_end(self.rest, &mut self.line, &mut self.flags);
        if text.is_empty() {
            self.rest = text;
            return Ok(None);
        }
        match read_token(text, bytes) {
            Ok((token, rest)) => {
                self.rest = rest;
                Ok(Some(token))
            }
            Err(kind) => Err(PoFault::new(kind, self.line)),
        }
    }

    /// Reads all remaining tokens, only to see whether they have a lexical fault.
    pub(crate) fn skip_tokens(&mut self, bytes: &mut StringBytes<'a>) -> Result<(), PoFault>
        requires { self.old.line + length self.old.rest.now < 2 ^ 32 }
        ensures ok { IfOk result (λ _. (text : List ℕ) (found : List Lexeme) →
            TakesLexemes found 1 text self.old.line self.old.rest.now
            → (more : List Lexeme) × Spells text (found ++ more)) }
        ensures err { IfErr result (λ fault. (fault ≡ out_of_memory)
            ⊎ ((text : List ℕ) (found : List Lexeme) →
            TakesLexemes found 1 text self.old.line self.old.rest.now
            → HasFault text fault.kind fault.line)) }
    {
        'tokens: while let Some(_) = self.next_token(bytes)? {}
        Ok(())
    }
}
