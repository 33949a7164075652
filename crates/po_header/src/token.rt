//! The tokens of a plural expression.
ghost use Rattle.std.specs.Prelude.{◌≡◌, ℕ, ◌+◌, ◌-◌, ◌*◌, ◌<◌, ◌≤◌, ◌^◌, ◌++◌, ◌∷◌, []};
ghost use Rattle.std.specs.Prelude.{List, Bool, length, MatchOption, IfSome, IfNone, Some, None, if◌then◌else◌, nat_lt};
ghost use Rattle.std.specs.List.{prefix_len, take_while};
ghost use Rattle.std.specs.Char.{is_ascii_digit};
ghost use Rattle.po_header.specs.ExprParsing.{IsStray, StopsBlanks};
ghost use Rattle.po_header.specs.Tokens.{is_blank, behind_blanks, long_symbol, short_symbol};
ghost use Rattle.po_header.specs.Tokens.{below_limit, long_at, Begins};
ghost use Rattle.byte_text.specs.Decimal.{decimal_value};

use byte_text::split_byte;

/// An operator between two operands.
#[derive(Clone, Copy)]
pub(crate) enum Operator {
    Or,
    And,
    Equal,
    NotEqual,
    Less,
    Greater,
    AtMost,
    AtLeast,
    Add,
    Subtract,
    Multiply,
    Divide,
    Remainder,
}

/// A token of an expression; `Count` is `n`.
#[derive(Clone, Copy)]
pub(crate) enum Token {
    Count,
    Number(u64),
    Open,
    Close,
    Question,
    Colon,
    Bang,
    Sign(Operator),
}

/// The token that two bytes spell, if they spell one.
fn long_token(first: u8, second: u8) -> Option<Token>
    ensures { result ≡ long_symbol (first ∷ second ∷ []) }
{
    if first == b'|' && second == b'|' {
        Some(Token::Sign(Operator::Or))
    } else if first == b'&' && second == b'&' {
        Some(Token::Sign(Operator::And))
    } else if first == b'=' && second == b'=' {
        Some(Token::Sign(Operator::Equal))
    } else if first == b'!' && second == b'=' {
        Some(Token::Sign(Operator::NotEqual))
    } else if first == b'<' && second == b'=' {
        Some(Token::Sign(Operator::AtMost))
    } else if first == b'>' && second == b'=' {
        Some(Token::Sign(Operator::AtLeast))
    } else {
        None
    }
}

/// The token that one byte spells, if it spells one.
fn short_token(byte: u8) -> Option<Token>
    ensures { result ≡ short_symbol (byte ∷ []) }
{
    match byte {
        b'n' => Some(Token::Count),
        b'(' => Some(Token::Open),
        b')' => Some(Token::Close),
        b'?' => Some(Token::Question),
        b':' => Some(Token::Colon),
        b'!' => Some(Token::Bang),
        b'<' => Some(Token::Sign(Operator::Less)),
        b'>' => Some(Token::Sign(Operator::Greater)),
        b'+' => Some(Token::Sign(Operator::Add)),
        b'-' => Some(Token::Sign(Operator::Subtract)),
        b'*' => Some(Token::Sign(Operator::Multiply)),
        b'/' => Some(Token::Sign(Operator::Divide)),
        b'%' => Some(Token::Sign(Operator::Remainder)),
        _ => None,
    }
}

/// Whether a byte is a space or a tab.
pub(crate) fn is_blank_byte(byte: u8) -> bool
    ensures { result ≡ is_blank byte }
{
    byte == b' ' || byte == b'\t'
}

/// The number of digits at the front.
pub(crate) fn digits_len(text: &[u8]) -> usize
    ensures { result ≡ prefix_len is_ascii_digit text.now }
{
    text.iter().take_while(|byte| byte.is_ascii_digit()).count()
}

/// The number of blanks at the front.
pub(crate) fn blanks_len(text: &[u8]) -> usize
    ensures { result ≡ prefix_len is_blank text.now }
{
    text.iter().take_while(|byte| is_blank_byte(**byte)).count()
}

/// Skips the blanks at the front.
pub(crate) fn skip_blanks(text: &[u8]) -> &[u8]
    ensures value { result.now ≡ behind_blanks text.now }
    ensures blanks { Begins [] text.now result.now }
    ensures stops { StopsBlanks result.now }
    ensures shorter { length result.now ≤ length text.now }
{
    let (_, rest) = text.split_at(blanks_len(text));
    rest
}

/// A number with one more digit; None if that is 2 ^ 64 or more.
fn shift_in(value: u64, digit: u8) -> Option<u64>
    ensures { result ≡ below_limit (10 * value + (digit - 48)) }
{
    let shifted = value.checked_mul(10)?;
    shifted.checked_add(u64::from(digit.saturating_sub(b'0')))
}

/// The number that digits spell; None if it is 2 ^ 64 or more.
pub(crate) fn number_of(digits: &[u8]) -> Option<u64>
    ensures { result ≡ below_limit (decimal_value digits.now) }
{
    let mut value: u64 = 0;
    for digit in digits {
        match shift_in(value, *digit) {
            Some(shifted) => value = shifted,
            None => return None,
        }
    }
    Some(value)
}

/// Reads the numeral at the front; None if it is 2 ^ 64 or more.
fn numeral_at(text: &[u8]) -> Option<(Token, &[u8])>
    requires { 0 < prefix_len is_ascii_digit text.now }
    ensures some { IfSome result (λ x. Begins (x.0 ∷ []) text.now x.1.now) }
    ensures shorter { IfSome result (λ x. length x.1.now < length text.now) }
    ensures none { IfNone result (IsStray text.now) }
{
    let (digits, rest) = text.split_at(digits_len(text));
    match number_of(digits) {
        Some(value) => Some((Token::Number(value), rest)),
        None => None,
    }
}

/// Reads the two-byte token at the front, if there is one.
fn long_token_at(text: &[u8]) -> Option<(Token, &[u8])>
    ensures some { IfSome result (λ x. Begins (x.0 ∷ []) text.now x.1.now) }
    ensures shorter { IfSome result (λ x. length x.1.now < length text.now) }
    ensures none { IfNone result (long_at text.now ≡ None) }
{
    let Some((first, rest)) = split_byte(text) else {
        return None
    };
    let Some((second, later)) = split_byte(rest) else {
        return None
    };
    match long_token(first, second) {
        Some(token) => Some((token, later)),
        None => None,
    }
}

/// Reads the token at the front; None if there is none, or if it is a numeral of 2 ^ 64 or more.
pub(crate) fn token_at(text: &[u8]) -> Option<(Token, &[u8])>
    requires { StopsBlanks text.now }
    ensures some { IfSome result (λ x. Begins (x.0 ∷ []) text.now x.1.now) }
    ensures shorter { IfSome result (λ x. length x.1.now < length text.now) }
    ensures none { IfNone result (IsStray text.now) }
{
    if let Some(found) = long_token_at(text) {
        return Some(found);
    }
    let Some((byte, rest)) = split_byte(text) else {
        return None
    };
    if byte.is_ascii_digit() {
        return numeral_at(text);
    }
    match short_token(byte) {
        Some(token) => Some((token, rest)),
        None => None,
    }
}
