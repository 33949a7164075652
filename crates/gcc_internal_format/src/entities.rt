//! What only the directives of GCC print, and the kinds that stand for it.
ghost use Rattle.std.specs.Prelude.{◌≡◌};
ghost use Rattle.gcc_internal_format.specs.declared.entities.Entity.{Entity as Value};
ghost use Rattle.gcc_internal_format.specs.GccEntities as spec;

use numbered_arguments::{Kind, Size};

/// What only the directives of GCC print.
#[derive(Clone, Copy, Debug, PartialEq, Eq)]
pub enum Entity {
    /// `H`: a place in a source
    Location,
    /// `D`, `J`: a declaration
    Declaration,
    /// `K`: a statement
    Statement,
    /// `F`: a function
    Function,
    /// `T`: a type
    Type,
    /// `A`: the arguments of a function
    Arguments,
    /// `E`: an expression
    Expression,
    /// `V`: the qualifiers `const` and `volatile`
    Qualifiers,
    /// `C`: the code of a tree
    Code,
    /// `O`: a binary operator
    Operator,
    /// `Q`: an operator of an assignment
    Assignment,
    /// `L`: a language
    Language,
    /// `P`: a parameter of a function
    Parameter,
}

/// The kind that stands for an entity: one that no directive of GCC asks for, and another one for each.
pub fn stand_in(entity: Entity) -> Kind
    ensures { result ≡ spec.stand_in entity }
{
    match entity {
        Entity::Location => Kind::Object,
        Entity::Declaration => Kind::Vector,
        Entity::Statement => Kind::Date,
        Entity::Function => Kind::Count(Size::Plain),
        Entity::Type => Kind::Count(Size::Short),
        Entity::Arguments => Kind::Count(Size::Long),
        Entity::Expression => Kind::Count(Size::LongLong),
        Entity::Qualifiers => Kind::Count(Size::Native),
        Entity::Code => Kind::Number,
        Entity::Operator => Kind::Float(Size::Plain),
        Entity::Assignment => Kind::Float(Size::Short),
        Entity::Language => Kind::Float(Size::Long),
        Entity::Parameter => Kind::Float(Size::LongLong),
    }
}

/// A law, without code: each entity has a kind of its own, which isn't one of a plain argument.
pub fn one_entity()
    ensures own { (one other : Value) → spec.stand_in one ≡ spec.stand_in other → one ≡ other }
    ensures apart { (one : Value) → ¬ spec.IsPlain (spec.stand_in one) }
{}
