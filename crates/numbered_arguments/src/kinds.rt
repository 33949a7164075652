//! Which kinds are the same, and which can be one object.
ghost use Rattle.std.specs.Prelude.{◌≡◌};
ghost use Rattle.numbered_arguments.specs.NumberedKinds as spec;

use crate::{Kind, Size};

fn same_size(one: Size, other: Size) -> bool
    ensures { result ≡ spec.same_size one other }
{
    match one {
        Size::Plain => matches!(other, Size::Plain),
        Size::Short => matches!(other, Size::Short),
        Size::Long => matches!(other, Size::Long),
        Size::LongLong => matches!(other, Size::LongLong),
        Size::Native => matches!(other, Size::Native),
    }
}

pub fn same_kind(one: Kind, other: Kind) -> bool
    ensures { result ≡ spec.same_kind one other }
{
    match (one, other) {
        (Kind::Any, Kind::Any)
        | (Kind::Character, Kind::Character)
        | (Kind::Text, Kind::Text)
        | (Kind::Vector, Kind::Vector)
        | (Kind::Pointer, Kind::Pointer)
        | (Kind::Object, Kind::Object)
        | (Kind::Number, Kind::Number)
        | (Kind::Date, Kind::Date) => true,
        (Kind::Integer(one), Kind::Integer(other))
        | (Kind::Unsigned(one), Kind::Unsigned(other))
        | (Kind::Float(one), Kind::Float(other))
        | (Kind::Count(one), Kind::Count(other)) => same_size(one, other),
        _ => false,
    }
}

fn is_any(kind: Kind) -> bool
    ensures { result ≡ spec.is_any kind }
{
    matches!(kind, Kind::Any)
}

/// Whether one object can be both.
pub(crate) fn kinds_fit(one: Kind, other: Kind) -> bool
    ensures { result ≡ spec.kinds_fit one other }
{
    is_any(one) || is_any(other) || same_kind(one, other)
}
