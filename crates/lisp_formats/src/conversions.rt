//! Which conversions there are, which parameters each expects, and what each asks for.
ghost use Rattle.std.specs.Prelude.{◌≡◌};
ghost use Rattle.lisp_formats.specs.LispConversions as spec;

use crate::parameters::Parameter;
use crate::{Kind, Notation};

/// What a conversion does.
#[derive(Clone, Copy)]
pub(crate) enum Conversion {
    /// writes any object, padded
    Object,
    /// writes any object, without parameters
    Plain,
    /// writes an integer in a fixed base
    Integer,
    /// writes an integer in a base that is a parameter
    Radix,
    /// writes a number with a fixed count of digits
    Fixed,
    /// writes a number with an exponent, maybe
    Exponential,
    /// writes a sum of money
    Dollars,
    /// writes a complex number
    Complex,
    /// writes a character
    Character,
    /// writes a character, which a parameter may give
    Coded,
    /// writes the ending of a plural
    Plural,
    /// writes text that a parameter repeats
    Repeated,
    /// writes text, or changes how text is written
    Bare,
    /// goes to a column
    Column,
    /// goes to a column, with a character that fills the way
    Filled,
    /// jumps, groups, chooses, loops, ends, calls a function, or takes a format as an argument: these are not read
    Unread,
}

/// What an argument is for, besides those for parameters.
#[derive(Clone, Copy)]
pub(crate) enum Target {
    /// there is none
    Nothing,
    /// the next argument
    Next(Kind),
    /// the previous argument once more, or the first one
    Previous,
    /// unknown, since the directive is not read
    Unread,
}

/// The conversions that both languages have.
fn shared(letter: u8) -> Option<Conversion>
    ensures { result ≡ spec.shared_conversion letter }
{
    match letter {
        b'a' | b'A' | b's' | b'S' => Some(Conversion::Object),
        b'b' | b'B' | b'd' | b'D' | b'o' | b'O' | b'x' | b'X' => Some(Conversion::Integer),
        b'r' | b'R' => Some(Conversion::Radix),
        b'f' | b'F' => Some(Conversion::Fixed),
        b'e' | b'E' | b'g' | b'G' => Some(Conversion::Exponential),
        b'$' => Some(Conversion::Dollars),
        b'p' | b'P' => Some(Conversion::Plural),
        b'%' | b'&' | b'|' | b'~' => Some(Conversion::Repeated),
        b'\n' => Some(Conversion::Bare),
        b'*' | b'?' | b'(' | b'[' | b'{' | b'^' => Some(Conversion::Unread),
        _ => None,
    }
}

/// The conversions that Scheme alone has, or has otherwise than Lisp.
fn of_scheme(letter: u8) -> Option<Conversion>
    ensures { result ≡ spec.of_scheme letter }
{
    match letter {
        b'c' | b'C' => Some(Conversion::Coded),
        b'i' | b'I' => Some(Conversion::Complex),
        b'y' | b'Y' => Some(Conversion::Plain),
        b't' | b'T' => Some(Conversion::Filled),
        b'_' | b'/' => Some(Conversion::Repeated),
        b'!' | b'q' | b'Q' => Some(Conversion::Bare),
        b'k' | b'K' => Some(Conversion::Unread),
        _ => None,
    }
}

/// The conversions that Lisp alone has, or has otherwise than Scheme.
fn of_lisp(letter: u8) -> Option<Conversion>
    ensures { result ≡ spec.of_lisp letter }
{
    match letter {
        b'c' | b'C' => Some(Conversion::Character),
        b'w' | b'W' => Some(Conversion::Plain),
        b't' | b'T' => Some(Conversion::Column),
        b'i' | b'I' => Some(Conversion::Repeated),
        b'_' => Some(Conversion::Bare),
        b'/' | b'!' | b'<' => Some(Conversion::Unread),
        _ => None,
    }
}

/// The conversion of a letter, if there is one.
pub(crate) fn conversion_of(notation: Notation, letter: u8) -> Option<Conversion>
    ensures { result ≡ spec.conversion_of notation letter }
{
    match shared(letter) {
        Some(conversion) => Some(conversion),
        None => match notation {
            Notation::Scheme => of_scheme(letter),
            Notation::Lisp => of_lisp(letter),
        },
    }
}

/// The kinds of the parameters of a conversion.
pub(crate) fn expected(conversion: Conversion) -> &'static [Kind]
    ensures { result.now ≡ spec.expected_kinds conversion }
{
    match conversion {
        Conversion::Object | Conversion::Dollars => &[
            Kind::OptionalInteger,
            Kind::OptionalInteger,
            Kind::OptionalInteger,
            Kind::OptionalCharacter,
        ],
        Conversion::Integer => &[
            Kind::OptionalInteger,
            Kind::OptionalCharacter,
            Kind::OptionalCharacter,
            Kind::OptionalInteger,
        ],
        Conversion::Radix => &[
            Kind::OptionalInteger,
            Kind::OptionalInteger,
            Kind::OptionalCharacter,
            Kind::OptionalCharacter,
            Kind::OptionalInteger,
        ],
        Conversion::Fixed | Conversion::Complex => &[
            Kind::OptionalInteger,
            Kind::OptionalInteger,
            Kind::OptionalInteger,
            Kind::OptionalCharacter,
            Kind::OptionalCharacter,
        ],
        Conversion::Exponential => &[
            Kind::OptionalInteger,
            Kind::OptionalInteger,
            Kind::OptionalInteger,
            Kind::OptionalInteger,
            Kind::OptionalCharacter,
            Kind::OptionalCharacter,
            Kind::OptionalCharacter,
        ],
        Conversion::Coded | Conversion::Repeated => &[Kind::OptionalInteger],
        Conversion::Column => &[Kind::OptionalInteger, Kind::OptionalInteger],
        Conversion::Filled => &[
            Kind::OptionalInteger,
            Kind::OptionalInteger,
            Kind::OptionalCharacter,
        ],
        _ => &[],
    }
}

/// Whether a directive has no parameter.
fn has_none(parameters: &[Parameter]) -> bool
    ensures { result ≡ spec.has_none parameters.now }
{
    matches!(parameters, [Parameter::Absent])
}

/// What a conversion asks for, besides its parameters. `colon` says whether there is the modifier `:`.
pub(crate) fn target_of(conversion: Conversion, colon: bool, parameters: &[Parameter]) -> Target
    ensures { result ≡ spec.target_of conversion colon parameters.now }
{
    match conversion {
        Conversion::Object | Conversion::Plain => Target::Next(Kind::Any),
        Conversion::Integer | Conversion::Radix => Target::Next(Kind::Integer),
        Conversion::Fixed | Conversion::Exponential | Conversion::Dollars => {
            Target::Next(Kind::Real)
        }
        Conversion::Complex => Target::Next(Kind::Complex),
        Conversion::Character => Target::Next(Kind::Character),
        Conversion::Coded if has_none(parameters) => Target::Next(Kind::Character),
        Conversion::Plural if colon => Target::Previous,
        Conversion::Plural => Target::Next(Kind::Any),
        Conversion::Unread => Target::Unread,
        _ => Target::Nothing,
    }
}
