//! When the arguments of a translation agree with those of its original.
ghost use Rattle.std.specs.Prelude.{◌≡◌, List, true};
ghost use Rattle.std.specs.List.{list_all};
ghost use Rattle.format_arguments.specs.declared.Strictness.{Strictness as Rule};
ghost use Rattle.numbered_arguments.specs.declared.Numbered.{Numbered as Asked};
ghost use Rattle.csharp_format.specs.CSharpAgreement as spec;

use format_arguments::Strictness;
use numbered_arguments::Numbered;

/// How many arguments a call has to pass.
fn passed(asked: &[Numbered]) -> u32
    ensures { result ≡ spec.argument_count asked.now }
{
    let mut count: u32 = 0;
    'asked: for argument in asked {
        if argument.number >= count {
            count = argument.number.wrapping_add(1);
        }
    }
    count
}

/// Whether the arguments of a translation agree with those of its original, as strictly as `rule` asks: a call has to
/// pass as many, or, leniently, no more. An argument that no item asks for also counts if one with a larger number is
/// asked for, since .NET ignores what a format doesn't use.
pub fn agrees(original: &[Numbered], translation: &[Numbered], rule: Strictness) -> bool
    ensures { result ≡ spec.agree original.now translation.now rule }
{
    match rule {
        Strictness::Same => passed(original) == passed(translation),
        Strictness::Lenient => passed(translation) <= passed(original),
    }
}

/// A law, without code: where they agree, a call that passes as many arguments as the original needs passes each one
/// that the translation asks for, unless a number is 4294967295.
pub fn each_is_passed()
    ensures { (original translation : List Asked) (rule : Rule) → spec.agree original translation rule ≡ true →
        list_all spec.is_counted translation ≡ true →
        list_all (spec.is_passed (spec.argument_count original)) translation ≡ true }
{}
