//! Single calls of a live store, each of which prints its result: `load`, `load_mo`, `publish`, `enter`, `learn`,
//! `settle`, `ask` and `ask_into`.
ghost use Rattle.std.specs.Prelude.{◌≡◌};

use crate::texts::PLAIN;
use catalogue::{LoadFault, Stats};
use desks::Accepted;
use live_set::{Ask, Query};
use live_versions::{
    AskFault, Lookups, Notice, Pinned, PublishFault, Publisher, StoreFault, Version,
};
use std::alloc::{AllocError, Global};
use std::io;
use std::sync::Wait;

/// How much is printed of a result.
#[derive(Clone, Copy)]
pub enum Words {
    /// All of it, as the value is.
    Whole,
    /// What the groups `store_rows` and `serve_rows` print.
    Short,
    /// What is printed of an entry in the line of `open_store`.
    Least,
}

/// How a reader asks.
#[derive(Clone, Copy)]
pub enum Way {
    Ask,
    AskInto,
    /// With `ask`, whose answer is printed in short.
    Short,
}

/// Prints the publisher's pending loads and its version.
pub fn print_state<R: Print>(rt: &R, publisher: &Publisher) -> io::Result<()> {
    let (pending, version) = (publisher.pending(), publisher.version());
    println!(rt; "  pending {pending}, version {version}")
}

/// Prints in short what came of a load or a job, and ends the line.
pub fn print_short<R: Print>(rt: &R, answer: Result<Accepted, StoreFault>) -> io::Result<()> {
    match answer {
        Ok(Accepted::Po(stats)) => println!(rt; "{} translated", stats.translated),
        Ok(Accepted::Mo(entries)) => println!(rt; "{entries} entries"),
        Err(StoreFault::Refused(LoadFault { kind, line })) => println!(rt; "{kind:?} at {line}"),
        Err(StoreFault::RefusedMo(fault)) => println!(rt; "{fault:?}"),
        Err(fault) => println!(rt; "{fault:?}"),
    }
}

/// Prints what came of a load of a PO text.
fn print_loaded<R: Print>(
    rt: &R,
    words: Words,
    domain: &str,
    locale: &str,
    answer: Result<Stats, StoreFault>,
) -> io::Result<()> {
    if let Words::Whole = words {
        return println!(rt; "load, {domain} {locale}, gives {answer:?}");
    }
    print!(rt; "load {locale}: ")?;
    match answer {
        Ok(stats) => print_short(rt, Ok(Accepted::Po(stats))),
        Err(fault) => print_short(rt, Err(fault)),
    }
}

/// Loads a PO text, and prints the result.
pub fn load<R: Print + AllocGlobal>(
    rt: &R,
    words: Words,
    publisher: &mut Publisher,
    domain: &str,
    locale: &str,
    text: &str,
) -> io::Result<()>
    ensures { publisher.new.seen.book ≡ publisher.old.seen.book }
{
    let answer = publisher.load(rt.alloc(), domain, locale, text.as_bytes(), PLAIN);
    print_loaded(rt, words, domain, locale, answer)?;
    print_state(rt, publisher)
}

/// Prints what came of a load of an MO file for Swedish.
fn print_loaded_mo<R: Print>(
    rt: &R,
    words: Words,
    domain: &str,
    answer: Result<u64, StoreFault>,
) -> io::Result<()> {
    if let Words::Whole = words {
        return println!(rt; "load_mo, {domain} sv, gives {answer:?}");
    }
    print!(rt; "load_mo sv: ")?;
    match answer {
        Ok(entries) => print_short(rt, Ok(Accepted::Mo(entries))),
        Err(fault) => print_short(rt, Err(fault)),
    }
}

/// Loads an MO file for Swedish, without its last `cut` bytes, and prints the result.
pub fn load_mo<R: Print + AllocGlobal>(
    rt: &R,
    words: Words,
    publisher: &mut Publisher,
    domain: &str,
    file: &[u8],
    cut: usize,
) -> io::Result<()>
    ensures { publisher.new.seen.book ≡ publisher.old.seen.book }
{
    let bytes = &file[..file.len().saturating_sub(cut)];
    let answer = publisher.load_mo(rt.alloc(), domain, "sv", bytes);
    print_loaded_mo(rt, words, domain, answer)?;
    print_state(rt, publisher)
}

/// Prints what came of a publish.
fn print_published<R: Print>(
    rt: &R,
    words: Words,
    answer: Result<Version, PublishFault>,
) -> io::Result<()> {
    match (words, answer) {
        (Words::Whole, _) => println!(rt; "publish gives {answer:?}"),
        (_, Ok(version)) => println!(rt; "publish: {version}"),
        (_, Err(fault)) => println!(rt; "publish: {fault:?}"),
    }
}

/// Publishes what is pending, and prints the result.
pub fn publish<R: Wait + Print>(rt: &R, words: Words, publisher: &mut Publisher) -> io::Result<()>
    ensures { publisher.new.seen.book ≡ publisher.old.seen.book }
{
    let answer = publisher.publish(rt);
    print_published(rt, words, answer)?;
    print_state(rt, publisher)
}

/// What is printed of an entry.
struct Shown {
    /// What stands before its version.
    before: &'static str,
    /// Its texts: what stands before each, its locale and its msgid.
    texts: &'static [(&'static str, &'static str, &'static str)],
    /// What stands after the last one.
    after: &'static str,
    /// What is printed if there is no entry.
    closed: &'static str,
}

const WHOLE: &Shown = &Shown {
    before: "enter gives ",
    texts: &[
        (", fr ", "fr", "hi"),
        (", de ", "de", "hi"),
        (", sv ", "sv", "hi"),
        (" ", "sv", "ba"),
    ],
    after: "\n",
    closed: "enter gives Closed\n",
};

const SHORT: &Shown = &Shown {
    before: "enter: ",
    texts: &[(" ", "fr", "hi"), (" ", "de", "hi"), (" ", "sv", "hi")],
    after: "\n",
    closed: "enter: Closed\n",
};

const LEAST: &Shown = &Shown {
    before: " ",
    texts: &[(":", "fr", "hi")],
    after: "",
    closed: " Closed",
};

/// What these words say of an entry.
fn shown_in(words: Words) -> &'static Shown {
    match words {
        Words::Whole => WHOLE,
        Words::Short => SHORT,
        Words::Least => LEAST,
    }
}

/// Prints the version of an entry and its texts.
fn print_entry<R: Print>(rt: &R, shown: &Shown, pinned: &Pinned<'_>) -> io::Result<()> {
    print!(rt; "{}{}", shown.before, pinned.version())?;
    for (before, locale, id) in shown.texts {
        print!(rt; "{before}{}", pinned.gettext("app", locale, id))?;
    }
    print!(rt; "{}", shown.after)
}

/// Enters, and prints what is found there.
pub fn enter<R: Print>(rt: &R, words: Words, reader: &mut Lookups) -> io::Result<()>
    ensures { reader.new.book ≡ reader.old.book }
{
    let shown = shown_in(words);
    let Ok(pinned) = reader.enter() else {
        return print!(rt; "{}", shown.closed);
    };
    let printed = print_entry(rt, shown, &pinned);
    pinned.leave();
    printed
}

/// Lets a reader learn of a notice, and prints what it has seen then, unless words are short.
pub fn learn<R: Print>(
    rt: &R,
    words: Words,
    reader: &mut Lookups,
    notice: &Notice,
) -> io::Result<()>
    requires { notice.now.book ≡ reader.old.book }
    ensures { reader.new.book ≡ reader.old.book }
{
    reader.learn(notice);
    match words {
        Words::Whole => println!(rt; "learn, {}, has seen {}", notice.version(), reader.seen()),
        _ => Ok(()),
    }
}

/// Settles with a notice, and prints the result.
pub fn settle<R: Print>(rt: &R, reader: &mut Lookups, notice: &Notice) -> io::Result<()>
    requires { notice.now.book ≡ reader.old.book }
    ensures { reader.new.book ≡ reader.old.book }
{
    let answer = reader.settle(notice);
    println!(rt; "settle, first, gives {answer:?}")
}

/// A query for `hi` in French.
pub fn query(alloc: Global) -> Result<Query, AllocError> {
    Ok(Query {
        domain: String::from_str(alloc, "app")?,
        languages: String::from_str(alloc, "fr")?,
        ask: Ask::Plain {
            id: String::from_str(alloc, "hi")?,
        },
    })
}

/// Prints an answer in short.
fn print_answer<R: Print>(rt: &R, answer: &Result<(Version, String), AskFault>) -> io::Result<()> {
    match answer {
        Ok((version, text)) => println!(rt; "ask: {version} {text}"),
        Err(fault) => println!(rt; "ask: {fault:?}"),
    }
}

/// Asks with `ask_into`, and prints the result.
fn ask_new<R: Print + AllocGlobal>(rt: &R, reader: &mut Lookups, query: &Query) -> io::Result<()>
    ensures { reader.new.book ≡ reader.old.book }
{
    let mut text = String::new(rt.alloc());
    let answer = reader.ask_into(query, &mut text);
    println!(rt; "ask_into gives {answer:?}, {:?}", text.as_str())
}

/// Asks in this way, and prints the result.
fn ask_with<R: Print + AllocGlobal>(
    rt: &R,
    way: Way,
    reader: &mut Lookups,
    query: &Query,
) -> io::Result<()>
    ensures { reader.new.book ≡ reader.old.book }
{
    match way {
        Way::Ask => println!(rt; "ask gives {:?}", reader.ask(rt.alloc(), query)),
        Way::AskInto => ask_new(rt, reader, query),
        Way::Short => print_answer(rt, &reader.ask(rt.alloc(), query)),
    }
}

/// Asks for `hi` in French, and prints the result.
pub fn ask<R: Print + AllocGlobal>(rt: &R, way: Way, reader: &mut Lookups) -> io::Result<()>
    ensures { reader.new.book ≡ reader.old.book }
{
    match query(rt.alloc()) {
        Ok(query) => ask_with(rt, way, reader, &query),
        Err(_) => print_unasked(rt, way),
    }
}

/// Prints that memory ran out before a reader could ask.
fn print_unasked<R: Print>(rt: &R, way: Way) -> io::Result<()> {
    match way {
        Way::Ask => println!(rt; "ask isn't called: out of memory"),
        Way::AskInto => println!(rt; "ask_into isn't called: out of memory"),
        Way::Short => println!(rt; "ask: Memory"),
    }
}
