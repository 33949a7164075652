//! Kinds of arguments, and sets of them.
ghost use Rattle.std.specs.Prelude.{◌≡◌};
ghost use Rattle.format_arguments.specs.Arguments as spec;
ghost use Rattle.format_arguments.specs.Indexing as indexing;

use crate::Kind;

pub(crate) fn is_any(kind: Kind) -> bool
    ensures { result ≡ spec.is_any kind }
{
    matches!(kind, Kind::Any)
}

pub fn same_kind(one: Kind, other: Kind) -> bool
    ensures { result ≡ spec.same_kind one other }
{
    match one {
        Kind::Any => matches!(other, Kind::Any),
        Kind::Percent => matches!(other, Kind::Percent),
        Kind::Character => matches!(other, Kind::Character),
        Kind::Text => matches!(other, Kind::Text),
        Kind::Integer => matches!(other, Kind::Integer),
        Kind::Float => matches!(other, Kind::Float),
    }
}

/// Whether one object can be both.
pub(crate) fn kinds_fit(one: Kind, other: Kind) -> bool
    ensures { result ≡ spec.kinds_fit one other }
{
    is_any(one) || is_any(other) || same_kind(one, other)
}

/// A set of kinds. `Any` isn't kept, since every set fits it.
#[derive(Clone, Copy)]
pub(crate) struct Kinds {
    pub(crate) percent: bool,
    pub(crate) character: bool,
    pub(crate) text: bool,
    pub(crate) integer: bool,
    pub(crate) float: bool,
}

impl Kinds {
    pub(crate) fn none() -> Kinds
        ensures { result ≡ indexing.no_kinds }
    {
        Kinds {
            percent: false,
            character: false,
            text: false,
            integer: false,
            float: false,
        }
    }

    /// Whether the kind, which isn't `Any`, is in the set.
    fn has(self, kind: Kind) -> bool
        ensures { result ≡ indexing.has self kind }
    {
        match kind {
            Kind::Any => false,
            Kind::Percent => self.percent,
            Kind::Character => self.character,
            Kind::Text => self.text,
            Kind::Integer => self.integer,
            Kind::Float => self.float,
        }
    }

    /// The set with one more kind.
    pub(crate) fn with(self, kind: Kind) -> Kinds
        ensures { result ≡ indexing.more self kind }
    {
        match kind {
            Kind::Any => self,
            Kind::Percent => Kinds {
                percent: true,
                ..self
            },
            Kind::Character => Kinds {
                character: true,
                ..self
            },
            Kind::Text => Kinds { text: true, ..self },
            Kind::Integer => Kinds {
                integer: true,
                ..self
            },
            Kind::Float => Kinds {
                float: true,
                ..self
            },
        }
    }

    /// Whether one of this set stands for the kind; every kind stands for `Any`.
    pub(crate) fn stand_for(self, kind: Kind) -> bool
        ensures { result ≡ indexing.stand_for self kind }
    {
        is_any(kind) || self.has(kind)
    }

    /// Whether all of this set fit the kind.
    pub(crate) fn fit(self, kind: Kind) -> bool
        ensures { result ≡ indexing.fit self kind }
    {
        is_any(kind)
            || (same_kind(kind, Kind::Percent) || !self.percent)
                && (same_kind(kind, Kind::Character) || !self.character)
                && (same_kind(kind, Kind::Text) || !self.text)
                && (same_kind(kind, Kind::Integer) || !self.integer)
                && (same_kind(kind, Kind::Float) || !self.float)
    }
}
