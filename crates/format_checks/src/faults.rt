//! The faults of an entry's forms.
ghost use Rattle.std.specs.Prelude.{◌≡◌, ◌↔◌, ◌++◌, [], ℕ, IfOk, OnOk, List};
ghost use Rattle.std.specs.List.{AllByRecursion};
ghost use Rattle.format_checks.specs.AskedViews.{asked_view, reading_view};
ghost use Rattle.format_checks.specs.FormatViews.{entry_view};
ghost use Rattle.format_checks.specs.declared.Fault.{Fault as FaultValue};
ghost use Rattle.format_checks.specs.FormatFaults as spec;

use crate::entry::rule_for;
use crate::languages::{Asked, Reading, agrees, read};
use crate::{Difference, Entry, Fault};
use format_arguments::Strictness;
use format_flags::Language;
use std::alloc::{AllocError, Global};

/// What is wrong with a form, given its original's arguments.
fn difference<'a>(
    alloc: Global,
    language: Language,
    rule: Strictness,
    original: &Asked<'a>,
    form: &'a [u8],
) -> Result<Option<Difference>, AllocError>
    ensures { IfOk result (λ found. spec.IsDifference language rule (asked_view original.now) form.now found) }
{
    let asked = match read(alloc, language, form)? {
        Reading::Format(asked) => asked,
        Reading::NoFormat => return Ok(Some(Difference::Invalid)),
        Reading::Unread => return Ok(Some(Difference::Unread)),
    };
    if agrees(alloc, language, original, &asked, rule)? {
        Ok(None)
    } else {
        Ok(Some(Difference::Arguments))
    }
}

/// What is wrong with a form, given what its original was read as.
fn verdict<'a>(
    alloc: Global,
    language: Language,
    rule: Strictness,
    original: &Reading<'a>,
    form: &'a [u8],
) -> Result<Option<Difference>, AllocError>
    ensures { IfOk result (λ found. spec.IsVerdict language rule (reading_view original.now) form.now found) }
{
    match original {
        Reading::Format(asked) => difference(alloc, language, rule, asked, form),
        Reading::NoFormat => Ok(None),
        Reading::Unread => Ok(Some(Difference::Unread)),
    }
}

/// Adds what is wrong with a form, if anything is.
fn add_fault(faults: &mut Vec<Fault>, fault: Option<Fault>) -> Result<(), AllocError>
    ensures { OnOk result (faults.new.items ≡ faults.old.items ++ spec.list_of fault) }
{
    if let Some(fault) = fault {
        faults.push(fault)?;
    }
    Ok(())
}

/// A fault of a form, if something is wrong with it.
fn fault_of(line: u32, language: Language, form: usize, found: Option<Difference>) -> Option<Fault>
    ensures { result ≡ spec.fault_of line language form found }
{
    match found {
        Some(difference) => Some(Fault {
            line,
            language,
            form,
            difference,
        }),
        None => None,
    }
}

/// Compares the forms of an entry as formats of one language, if it is flagged so, and adds their faults.
fn add_language_faults(
    faults: &mut Vec<Fault>,
    alloc: Global,
    entry: Entry<'_>,
    language: Language,
    often: &[bool],
) -> Result<(), AllocError>
    ensures { OnOk result (spec.AddsFaults entry.entry.line
        (spec.flagged_questions (entry_view entry.entry) often.now language) faults.old.items faults.new.items) }
{
    if !entry.flags.has(language) {
        return Ok(());
    }
    let original = read(alloc, language, entry.original())?;
    let mut form = 0;
    'forms: for text in entry.forms {
        let rule = rule_for(entry, often, form);
        let found = verdict(alloc, language, rule, &original, *text)?;
        add_fault(faults, fault_of(entry.line, language, form, found))?;
        form += 1;
    }
    Ok(())
}

/// The languages whose formats are checked, in the order of their faults.
const CHECKED: &[Language] = &[
    Language::ObjectiveC,
    Language::Python,
    Language::PythonBrace,
    Language::Java,
    Language::JavaPrintf,
    Language::CSharp,
    Language::JavaScript,
    Language::Scheme,
    Language::Lisp,
    Language::Librep,
    Language::Ruby,
    Language::Shell,
    Language::Awk,
    Language::Lua,
    Language::ObjectPascal,
    Language::Smalltalk,
    Language::Qt,
    Language::QtPlural,
    Language::Kde,
    Language::KdeKuit,
    Language::Boost,
    Language::Tcl,
    Language::Perl,
    Language::PerlBrace,
    Language::Php,
    Language::GccInternal,
    Language::GfcInternal,
    Language::Ycp,
];

/// Adds the faults of an entry: those of each language in turn, in the order of the forms. `often` says which forms
/// serve five numbers or more, as far as that is known. The only error is a failed allocation.
pub fn add_faults(
    faults: &mut Vec<Fault>,
    alloc: Global,
    entry: Entry<'_>,
    often: &[bool],
) -> Result<(), AllocError>
    ensures { OnOk result (spec.AddsFaults entry.entry.line (spec.all_questions (entry_view entry.entry) often.now)
        faults.old.items faults.new.items) }
{
    'languages: for language in CHECKED {
        add_language_faults(faults, alloc, entry, *language, often)?;
    }
    Ok(())
}

/// A law, without code: there is one list of faults, and it is empty exactly if nothing is wrong with any form.
pub fn one_list()
    ensures one { (line : ℕ) (asked : List spec.Question) (found others : List FaultValue) →
        spec.AreFaults line asked found → spec.AreFaults line asked others → found ≡ others }
    ensures none { (line : ℕ) (asked : List spec.Question) →
        spec.AreFaults line asked [] ↔ AllByRecursion spec.IsAccepted asked }
{}
