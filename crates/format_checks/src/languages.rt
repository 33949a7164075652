//! Formats of each language: their arguments, and when two formats agree.
ghost use Rattle.std.specs.Prelude.{◌≡◌, IfOk, IfErr, None, false, map};
ghost use Rattle.format_arguments.specs.ArgumentViews.{argument_view};
ghost use Rattle.format_checks.specs.FormatLanguages as spec;
ghost use Rattle.format_checks.specs.AskedViews.{asked_view, reading_view};

use format_arguments::{Argument, FormatFault, Strictness};
use format_flags::Language;
use lisp_formats::{Kind as Placed, LispFault, Notation as Lisps};
use named_formats::Notation as Names;
use numbered_arguments::Numbered;
use numbered_formats::Notation as Numbers;
use objc_format::ObjcFault;
use script_formats::Notation as Scripts;
use std::alloc::{AllocError, Global};

/// The arguments of a format, as its language has them.
#[derive(Drop)]
pub(crate) enum Asked<'a> {
    /// by their names, or in the order of the text
    Named(Vec<Argument<'a>>),
    /// by their numbers
    Numbered(Vec<Numbered>),
    /// by their places alone
    Placed(Vec<Placed>),
}

/// What a text was read as.
#[derive(Drop)]
pub(crate) enum Reading<'a> {
    /// a format that asks for these
    Format(Asked<'a>),
    /// no format of the language
    NoFormat,
    /// a text that is not read here, which may be a format
    Unread,
}

/// Whether the arguments of a language's formats have names, or the order of the text.
fn is_named(language: Language) -> bool
    ensures { result ≡ spec.is_named language }
{
    matches!(
        language,
        Language::Python
            | Language::PythonBrace
            | Language::Ruby
            | Language::Shell
            | Language::PerlBrace
    )
}

/// The arguments of a format with names.
#[tactic(auto, using(crate::proofs::Failing::python, crate::proofs::Failing::brace, crate::proofs::Failing::ruby, crate::proofs::Failing::shell, crate::proofs::Failing::perl_brace))]
fn named_arguments(
    alloc: Global,
    language: Language,
    text: &[u8],
) -> Result<Vec<Argument<'_>>, FormatFault>
    ensures ok { IfOk result (λ asked. spec.ListsNamed language text.now (map argument_view asked.items)) }
    ensures err { IfErr result (λ fault. spec.FailsNamed language text.now fault) }
{
    match language {
        Language::Python => python_format::signature(alloc, text),
        Language::PythonBrace => python_brace_format::signature(alloc, text),
        Language::Ruby => ruby_format::signature(alloc, text),
        Language::Shell => named_formats::signature(alloc, Names::Shell, text),
        Language::PerlBrace => named_formats::signature(alloc, Names::PerlBrace, text),
        _ => Err(FormatFault::Invalid),
    }
}

fn script_of(language: Language) -> Option<Scripts>
    ensures { result ≡ spec.script_of language }
{
    match language {
        Language::JavaScript => Some(Scripts::JavaScript),
        Language::Awk => Some(Scripts::Awk),
        Language::Lua => Some(Scripts::Lua),
        Language::ObjectPascal => Some(Scripts::ObjectPascal),
        Language::Boost => Some(Scripts::Boost),
        Language::Tcl => Some(Scripts::Tcl),
        Language::Perl => Some(Scripts::Perl),
        _ => None,
    }
}

fn number_of(language: Language) -> Option<Numbers>
    ensures { result ≡ spec.number_of language }
{
    match language {
        Language::Smalltalk => Some(Numbers::Smalltalk),
        Language::Qt => Some(Numbers::Qt),
        Language::QtPlural => Some(Numbers::QtPlural),
        Language::Kde => Some(Numbers::Kde),
        Language::Ycp => Some(Numbers::Ycp),
        _ => None,
    }
}

fn is_objc(language: Language) -> bool
    ensures { result ≡ spec.is_objc language }
{
    matches!(language, Language::ObjectiveC)
}

/// The arguments of a format with numbers, but of Objective-C.
#[tactic(auto, using(crate::proofs::Failing::script, crate::proofs::Failing::number, crate::proofs::Failing::java, crate::proofs::Failing::java_printf, crate::proofs::Failing::csharp, crate::proofs::Failing::librep, crate::proofs::Failing::gcc_internal, crate::proofs::Failing::gfc_internal, crate::proofs::Failing::kuit, crate::proofs::Failing::php))]
fn numbered_arguments(
    alloc: Global,
    language: Language,
    text: &[u8],
) -> Result<Vec<Numbered>, FormatFault>
    ensures ok { IfOk result (λ asked. spec.ListsNumbered language text.now asked.items) }
    ensures err { spec.is_objc language ≡ false → IfErr result (λ fault. spec.FailsNumbered language text.now fault) }
{
    if let Some(notation) = script_of(language) {
        return script_formats::signature(alloc, notation, text);
    }
    if let Some(notation) = number_of(language) {
        return numbered_formats::signature(alloc, notation, text);
    }
    match language {
        Language::Java => java_formats::signature(alloc, text),
        Language::JavaPrintf => java_printf_format::signature(alloc, text),
        Language::CSharp => csharp_format::signature(alloc, text),
        Language::Librep => librep_format::signature(alloc, text),
        Language::KdeKuit => kuit_formats::signature(alloc, text),
        Language::Php => php_format::signature(alloc, text),
        Language::GccInternal => gcc_internal_format::signature(alloc, text),
        Language::GfcInternal => gfc_internal_format::signature(alloc, text),
        _ => Err(FormatFault::Invalid),
    }
}

/// The arguments of a format of the language, if it has names or numbers and isn't Objective-C. No text is a format of
/// a language that isn't checked yet.
fn signature(alloc: Global, language: Language, text: &[u8]) -> Result<Asked<'_>, FormatFault>
    ensures ok { IfOk result (λ asked. spec.Lists language text.now (asked_view asked)) }
    ensures err { spec.lisp_of language ≡ None → spec.is_objc language ≡ false →
        IfErr result (λ fault. spec.HasFault language text.now fault) }
{
    if is_named(language) {
        Ok(Asked::Named(named_arguments(alloc, language, text)?))
    } else {
        Ok(Asked::Numbered(numbered_arguments(alloc, language, text)?))
    }
}

/// Reads a format that has names or numbers and isn't one of Objective-C.
fn read_other(alloc: Global, language: Language, text: &[u8]) -> Result<Reading<'_>, AllocError>
    ensures { spec.lisp_of language ≡ None → spec.is_objc language ≡ false →
        IfOk result (λ reading. spec.IsReading language text.now (reading_view reading)) }
{
    match signature(alloc, language, text) {
        Ok(asked) => Ok(Reading::Format(asked)),
        Err(FormatFault::Invalid) => Ok(Reading::NoFormat),
        Err(FormatFault::Memory) => Err(AllocError),
    }
}

fn lisp_of(language: Language) -> Option<Lisps>
    ensures { result ≡ spec.lisp_of language }
{
    match language {
        Language::Scheme => Some(Lisps::Scheme),
        Language::Lisp => Some(Lisps::Lisp),
        _ => None,
    }
}

/// Reads a format of Scheme or of Lisp.
fn read_placed(alloc: Global, notation: Lisps, text: &[u8]) -> Result<Reading<'_>, AllocError>
    ensures { IfOk result (λ reading. spec.IsPlacedReading notation text.now (reading_view reading)) }
{
    match lisp_formats::signature(alloc, notation, text) {
        Ok(asked) => Ok(Reading::Format(Asked::Placed(asked))),
        Err(LispFault::Invalid) => Ok(Reading::NoFormat),
        Err(LispFault::Unread) => Ok(Reading::Unread),
        Err(LispFault::Memory) => Err(AllocError),
    }
}

/// Reads a format of Objective-C.
fn read_objc(alloc: Global, text: &[u8]) -> Result<Reading<'_>, AllocError>
    ensures { IfOk result (λ reading. spec.IsObjcReading text.now (reading_view reading)) }
{
    match objc_format::signature(alloc, text) {
        Ok(asked) => Ok(Reading::Format(Asked::Numbered(asked))),
        Err(ObjcFault::Invalid) => Ok(Reading::NoFormat),
        Err(ObjcFault::Unread) => Ok(Reading::Unread),
        Err(ObjcFault::Memory) => Err(AllocError),
    }
}

/// Reads a text as a format of the language. The only error is a failed allocation.
pub(crate) fn read(
    alloc: Global,
    language: Language,
    text: &[u8],
) -> Result<Reading<'_>, AllocError>
    ensures { IfOk result (λ reading. spec.IsReading language text.now (reading_view reading)) }
{
    if is_objc(language) {
        return read_objc(alloc, text);
    }
    match lisp_of(language) {
        Some(notation) => read_placed(alloc, notation, text),
        None => read_other(alloc, language, text),
    }
}

fn named_agree<'a>(
    alloc: Global,
    language: Language,
    original: &[Argument<'a>],
    translation: &[Argument<'a>],
    rule: Strictness,
) -> Result<bool, AllocError>
    ensures { IfOk result (λ agree. agree
        ≡ spec.named_agree language (map argument_view original.now) (map argument_view translation.now) rule) }
{
    match language {
        Language::PythonBrace => python_brace_format::agrees(alloc, original, translation, rule),
        Language::PerlBrace => {
            named_formats::agrees(alloc, Names::PerlBrace, original, translation, rule)
        }
        _ => format_arguments::agrees(alloc, original, translation, rule),
    }
}

fn numbered_agree(
    alloc: Global,
    language: Language,
    original: &[Numbered],
    translation: &[Numbered],
    rule: Strictness,
) -> Result<bool, AllocError>
    ensures { IfOk result (λ agree. agree
        ≡ spec.numbered_agree language original.now translation.now rule) }
{
    if let Some(notation) = script_of(language) {
        return script_formats::agrees(alloc, notation, original, translation, rule);
    }
    if let Some(notation) = number_of(language) {
        return numbered_formats::agrees(alloc, notation, original, translation, rule);
    }
    match language {
        Language::CSharp => Ok(csharp_format::agrees(original, translation, rule)),
        Language::GccInternal => gcc_internal_format::agrees(alloc, original, translation, rule),
        Language::GfcInternal => gfc_internal_format::agrees(alloc, original, translation, rule),
        Language::KdeKuit => {
            numbered_formats::agrees(alloc, Numbers::Kde, original, translation, rule)
        }
        _ => numbered_arguments::agrees(alloc, original, translation, rule),
    }
}

/// Whether a translation's arguments agree with its original's. The only error is a failed allocation.
pub(crate) fn agrees<'a>(
    alloc: Global,
    language: Language,
    original: &Asked<'a>,
    translation: &Asked<'a>,
    rule: Strictness,
) -> Result<bool, AllocError>
    ensures { IfOk result (λ agree. agree
        ≡ spec.agree language (asked_view original.now) (asked_view translation.now) rule) }
{
    match original {
        Asked::Named(original) => match translation {
            Asked::Named(translation) => named_agree(alloc, language, original, translation, rule),
            _ => Ok(false),
        },
        Asked::Numbered(original) => match translation {
            Asked::Numbered(translation) => {
                numbered_agree(alloc, language, original, translation, rule)
            }
            _ => Ok(false),
        },
        Asked::Placed(original) => match translation {
            Asked::Placed(translation) => Ok(lisp_formats::agrees(original, translation, rule)),
            _ => Ok(false),
        },
    }
}
