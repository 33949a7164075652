//! Calls of `Name::new`, of a set's `absorb`, and of `try_clone` on a name, a load and a set.
use crate::printing::print_uncalled;
use crate::texts::{HALLO, PLAIN, SALUT};
use catalogue::compile;
use live_set::{CatalogueSet, Load, Name};
use std::alloc::{AllocError, Global};
use std::io;
use std::sync::Arc;

/// 65 letters, one more than a name may have.
const LETTERS: &str = "abcdefghijklmnopqrstuvwxyzabcdefghijklmnopqrstuvwxyzABCDEFGHIJKLM";

/// Makes a name of a text, and prints the result.
fn name<R: Print + AllocGlobal>(rt: &R, label: &str, text: &str) -> io::Result<()> {
    print!(rt; "Name::new, {label}, gives ")?;
    match Name::new(rt.alloc(), text) {
        Ok(name) => println!(rt; "Ok({})", name.as_str()),
        Err(fault) => println!(rt; "Err({fault:?})"),
    }
}

/// The group `name`.
pub fn name_all<R: Print + AllocGlobal>(rt: &R) -> io::Result<()> {
    name(rt, "no letters", "")?;
    name(rt, "65 letters", LETTERS)?;
    if let Some((_, most)) = LETTERS.split_at_checked(1) {
        name(rt, "64 letters", most)?;
    }
    name(rt, "a space", "a b")?;
    name(rt, "a locale", "de_AT.UTF-8@euro")
}

/// A load of a PO text for a locale, or `None` if memory runs out.
fn load_of(alloc: Global, locale: &str, text: &str) -> Option<Load> {
    let domain = Name::new(alloc, "app").ok()?;
    let locale = Name::new(alloc, locale).ok()?;
    let compiled = compile(alloc, text.as_bytes(), PLAIN).ok()?;
    match Arc::new(alloc, compiled.catalogue) {
        Ok(catalogue) => Some(Load {
            domain,
            locale,
            catalogue,
        }),
        Err(_) => None,
    }
}

/// Prints the version of a set and the translations of `hi` in three locales.
fn print_set<R: Print>(rt: &R, set: &CatalogueSet) -> io::Result<()> {
    print!(rt; "  version {}", set.version())?;
    for locale in ["fr", "de", "sv"] {
        print!(rt; ", {locale} {}", set.gettext("app", locale, "hi"))?;
    }
    println!(rt)
}

/// Absorbs a load, or returns `None` if memory for it ran out.
fn absorb_one(
    alloc: Global,
    set: &mut CatalogueSet,
    locale: &str,
    text: &str,
) -> Option<Result<(), AllocError>> {
    match load_of(alloc, locale, text) {
        Some(load) => Some(set.absorb(&load)),
        None => None,
    }
}

/// Absorbs a PO text for a locale, and prints the result.
fn absorb<R: Print + AllocGlobal>(
    rt: &R,
    set: &mut CatalogueSet,
    locale: &str,
    text: &str,
) -> io::Result<()> {
    let printed = match absorb_one(rt.alloc(), set, locale, text) {
        Some(answer) => println!(rt; "absorb, {locale}, gives {answer:?}"),
        None => println!(rt; "absorb, {locale}, isn't called: out of memory"),
    };
    printed?;
    print_set(rt, set)
}

/// Loads for three locales, one of them twice.
const LOADS: &[(&str, &str)] = &[("fr", SALUT), ("de", HALLO), ("fr", HALLO), ("sv", SALUT)];

/// Absorbs the loads into a set, and prints it each time.
fn absorb_rows<R: Print + AllocGlobal>(rt: &R, set: &mut CatalogueSet) -> io::Result<()> {
    print_set(rt, set)?;
    for (locale, text) in LOADS {
        absorb(rt, set, locale, text)?;
    }
    Ok(())
}

/// The group `absorb`.
pub fn absorb_all<R: Print + AllocGlobal>(rt: &R) -> io::Result<()> {
    let mut set = CatalogueSet::new(rt.alloc());
    absorb_rows(rt, &mut set)
}

/// Copies a name, and prints the result.
fn clone_name<R: Print + AllocGlobal>(rt: &R) -> io::Result<()> {
    print!(rt; "try_clone, a name, ")?;
    let Ok(name) = Name::new(rt.alloc(), "app") else {
        return print_uncalled(rt);
    };
    match name.try_clone() {
        Ok(again) => println!(rt; "gives Ok({}), {}", again.as_str(), name.as_str()),
        Err(fault) => println!(rt; "gives Err({fault:?}), {}", name.as_str()),
    }
}

/// Prints what a copy of a load has, if there is one, and a translation of the original.
fn print_loads<R: Print>(rt: &R, load: &Load, again: &Result<Load, AllocError>) -> io::Result<()> {
    let kept = load.catalogue.gettext("hi");
    match again {
        Ok(again) => {
            let (domain, locale) = (again.domain.as_str(), again.locale.as_str());
            let text = again.catalogue.gettext("hi");
            println!(rt; "gives Ok({domain} {locale} {text}), {kept}")
        }
        Err(fault) => println!(rt; "gives Err({fault:?}), {kept}"),
    }
}

/// Copies a load, and prints the result.
fn clone_load<R: Print + AllocGlobal>(rt: &R) -> io::Result<()> {
    print!(rt; "try_clone, a load, ")?;
    match load_of(rt.alloc(), "fr", SALUT) {
        Some(load) => print_loads(rt, &load, &load.try_clone()),
        None => print_uncalled(rt),
    }
}

/// Absorbs a PO text for a locale, or returns `false` if memory runs out.
fn put(alloc: Global, set: &mut CatalogueSet, locale: &str, text: &str) -> bool {
    matches!(absorb_one(alloc, set, locale, text), Some(Ok(())))
}

/// Prints a copy of a set, if there is one, and the original.
fn print_sets<R: Print>(
    rt: &R,
    set: &CatalogueSet,
    again: &Result<CatalogueSet, AllocError>,
) -> io::Result<()> {
    match again {
        Ok(again) => {
            println!(rt; "gives Ok")?;
            print_set(rt, again)?;
        }
        Err(fault) => println!(rt; "gives Err({fault:?})")?,
    }
    print_set(rt, set)
}

/// Copies a set of a French and a German text, and prints the result with the copy and the original.
fn clone_set<R: Print + AllocGlobal>(rt: &R) -> io::Result<()> {
    print!(rt; "try_clone, a set, ")?;
    let mut set = CatalogueSet::new(rt.alloc());
    if put(rt.alloc(), &mut set, "fr", SALUT) && put(rt.alloc(), &mut set, "de", HALLO) {
        print_sets(rt, &set, &set.try_clone(rt.alloc()))
    } else {
        print_uncalled(rt)
    }
}

/// The group `try_clone`.
pub fn clone_all<R: Print + AllocGlobal>(rt: &R) -> io::Result<()> {
    clone_name(rt)?;
    clone_load(rt)?;
    clone_set(rt)
}
