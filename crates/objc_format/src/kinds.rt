//! What the directives of Objective-C take, and the kinds that stand for it.
ghost use Rattle.std.specs.Prelude.{◌≡◌, Some};
ghost use Rattle.numbered_arguments.specs.declared.Kind.{Kind as KindValue};
ghost use Rattle.objc_format.specs.declared.kinds.Taken.{Taken as Value};
ghost use Rattle.objc_format.specs.ObjcKinds as spec;

use c_signature::{ArgKind, Size as CSize};
use numbered_arguments::{Kind, Size};

/// What a directive takes.
#[derive(Clone, Copy, Debug, PartialEq, Eq)]
pub enum Taken {
    /// what a directive of C takes
    C(ArgKind),
    /// `@`: an object
    Object,
}

fn signed(size: CSize) -> Kind
    ensures { result ≡ spec.signed_kind size }
{
    match size {
        CSize::Plain => Kind::Integer(Size::Plain),
        CSize::Short => Kind::Integer(Size::Short),
        CSize::Long => Kind::Integer(Size::Long),
        CSize::LongLong => Kind::Integer(Size::LongLong),
        CSize::SizeT => Kind::Integer(Size::Native),
        CSize::Byte => Kind::Count(Size::Short),
        CSize::Max => Kind::Count(Size::Long),
        CSize::PtrDiff => Kind::Count(Size::LongLong),
    }
}

fn unsigned(size: CSize) -> Kind
    ensures { result ≡ spec.unsigned_kind size }
{
    match size {
        CSize::Plain => Kind::Unsigned(Size::Plain),
        CSize::Short => Kind::Unsigned(Size::Short),
        CSize::Long => Kind::Unsigned(Size::Long),
        CSize::LongLong => Kind::Unsigned(Size::LongLong),
        CSize::SizeT => Kind::Unsigned(Size::Native),
        CSize::Byte => Kind::Float(Size::Short),
        CSize::Max => Kind::Float(Size::Long),
        CSize::PtrDiff => Kind::Float(Size::Native),
    }
}

fn counted(size: CSize) -> Option<Kind>
    ensures { result ≡ spec.pointer_kind size }
{
    match size {
        CSize::Plain => Some(Kind::Count(Size::Plain)),
        _ => None,
    }
}

/// The kind that stands for what a directive takes: another one for each. None: it is not read.
pub fn stand_in(taken: Taken) -> Option<Kind>
    ensures { result ≡ spec.stand_in taken }
{
    let kind = match taken {
        Taken::C(kind) => kind,
        Taken::Object => return Some(Kind::Object),
    };
    match kind {
        ArgKind::Signed(size) => Some(signed(size)),
        ArgKind::Unsigned(size) => Some(unsigned(size)),
        ArgKind::Double => Some(Kind::Float(Size::Plain)),
        ArgKind::LongDouble => Some(Kind::Float(Size::LongLong)),
        ArgKind::Char => Some(Kind::Character),
        ArgKind::WideChar => Some(Kind::Date),
        ArgKind::Text => Some(Kind::Text),
        ArgKind::WideText => Some(Kind::Vector),
        ArgKind::Pointer => Some(Kind::Pointer),
        ArgKind::Count(size) => counted(size),
    }
}

/// A law, without code: what is read has a kind of its own.
pub fn one_kind()
    ensures { (one other : Value) (kind : KindValue) → spec.stand_in one ≡ Some kind →
        spec.stand_in other ≡ Some kind → one ≡ other }
{}
