//! What the directives of GNU Fortran print, and the kinds that stand for it.
ghost use Rattle.std.specs.Prelude.{◌≡◌};
ghost use Rattle.gfc_internal_format.specs.declared.operands.Operand.{Operand as Value};
ghost use Rattle.gfc_internal_format.specs.GfcOperands as spec;

use numbered_arguments::{Kind, Size};

/// What a directive prints.
#[derive(Clone, Copy, Debug, PartialEq, Eq)]
pub enum Operand {
    /// `C`: the place in the source that the compiler has come to, which no call passes
    CurrentLocus,
    /// `L`: a place in a source
    Locus,
    /// `c`: a character
    Character,
    /// `s`: a string
    Text,
    /// `d`, `i`: an `int`
    Int,
    /// `u`: an `unsigned int`
    Unsigned,
    /// `ld`, `li`: a `long`
    Long,
    /// `lu`: an `unsigned long`
    UnsignedLong,
}

/// The kind that stands for what a directive prints: another one for each.
pub fn stand_in(operand: Operand) -> Kind
    ensures { result ≡ spec.stand_in operand }
{
    match operand {
        Operand::CurrentLocus => Kind::Pointer,
        Operand::Locus => Kind::Object,
        Operand::Character => Kind::Character,
        Operand::Text => Kind::Text,
        Operand::Int => Kind::Integer(Size::Plain),
        Operand::Unsigned => Kind::Unsigned(Size::Plain),
        Operand::Long => Kind::Integer(Size::Long),
        Operand::UnsignedLong => Kind::Unsigned(Size::Long),
    }
}

/// A law, without code: what a directive prints has a kind of its own.
pub fn one_kind()
    ensures { (one other : Value) → spec.stand_in one ≡ spec.stand_in other → one ≡ other }
{}
