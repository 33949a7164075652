//! Conversions, and the arguments that they take.
ghost use Rattle.std.specs.Prelude.{◌≡◌};
ghost use Rattle.c_signature.specs.Conversions as table;
ghost use Rattle.c_signature.specs.Readers.{argument_view, modifier_view};

use crate::parts::Modifier;
use crate::{ArgKind, Size};

/// The argument that a directive takes, given its conversion and length modifier.
#[derive(Clone, Copy)]
pub enum Argument {
    /// The conversion is undefined with this length modifier.
    Undefined,
    /// No argument, as for `%%`.
    Nothing,
    /// One argument of this kind.
    One(ArgKind),
}

/// The size of an integer; `L` counts as `ll`.
fn integer_size(modifier: Modifier) -> Size
    ensures { result ≡ table.integer_size (modifier_view modifier) }
{
    match modifier {
        Modifier::Of(size) => size,
        Modifier::LongDouble => Size::LongLong,
    }
}

fn floating(modifier: Modifier) -> Argument
    ensures { argument_view result ≡ table.floating (modifier_view modifier) }
{
    match modifier {
        Modifier::Of(Size::Plain | Size::Long) => Argument::One(ArgKind::Double),
        Modifier::LongDouble => Argument::One(ArgKind::LongDouble),
        _ => Argument::Undefined,
    }
}

/// The `narrow` kind without a length modifier, and the `wide` one with `l`.
fn narrow_or_wide(modifier: Modifier, narrow: ArgKind, wide: ArgKind) -> Argument
    ensures { argument_view result ≡ table.narrow_or_wide narrow wide (modifier_view modifier) }
{
    match modifier {
        Modifier::Of(Size::Plain) => Argument::One(narrow),
        Modifier::Of(Size::Long) => Argument::One(wide),
        _ => Argument::Undefined,
    }
}

fn count(modifier: Modifier) -> Argument
    ensures { argument_view result ≡ table.count (modifier_view modifier) }
{
    match modifier {
        Modifier::Of(size) => Argument::One(ArgKind::Count(size)),
        Modifier::LongDouble => Argument::Undefined,
    }
}

/// The argument of a conversion that allows no length modifier.
fn alone(modifier: Modifier, argument: Argument) -> Argument
    ensures { argument_view result ≡ table.without_modifier (argument_view argument) (modifier_view modifier) }
{
    match modifier {
        Modifier::Of(Size::Plain) => argument,
        _ => Argument::Undefined,
    }
}

/// The argument that a conversion takes with this length modifier (C standard, 7.21.6.1, 7 and 8).
#[inline(always)]
pub fn argument_of(conversion: u8, modifier: Modifier) -> Argument
    ensures { argument_view result ≡ table.argument_of conversion (modifier_view modifier) }
{
    match conversion {
        b'd' | b'i' => Argument::One(ArgKind::Signed(integer_size(modifier))),
        b'o' | b'u' | b'x' | b'X' => Argument::One(ArgKind::Unsigned(integer_size(modifier))),
        b'e' | b'E' | b'f' | b'F' | b'g' | b'G' | b'a' | b'A' => floating(modifier),
        b'c' => narrow_or_wide(modifier, ArgKind::Char, ArgKind::WideChar),
        b's' => narrow_or_wide(modifier, ArgKind::Text, ArgKind::WideText),
        b'C' => alone(modifier, Argument::One(ArgKind::WideChar)),
        b'S' => alone(modifier, Argument::One(ArgKind::WideText)),
        b'p' => alone(modifier, Argument::One(ArgKind::Pointer)),
        b'n' => count(modifier),
        b'm' | b'%' => alone(modifier, Argument::Nothing),
        _ => Argument::Undefined,
    }
}
