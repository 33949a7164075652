//! Commands with their outcomes, and requests, as the tables of the tests have them.
use catalogue::{LoadFault, LoadKind, Options, Stats};
use desks::{Accepted, Gate, Job, Source};
use life::{Command, Life, LifeFault, Outcome, Reply, Request, run_life};
use live_set::{Ask, Query};
use live_versions::StoreFault;
use std::alloc::{AllocError, Global};
use std::sync::Wait;
use std::thread::Threads;

pub(crate) const PLAIN: Options = Options {
    checked: false,
    use_fuzzy: false,
};

const CHECKED: Options = Options {
    checked: true,
    use_fuzzy: false,
};

pub(crate) const SALUT: &[u8] = b"msgid \"hi\"\nmsgstr \"salut\"\n";

pub(crate) const BONJOUR: &[u8] = b"msgid \"hi\"\nmsgstr \"bonjour\"\n";

/// A text with one message twice, the second time on line 4.
pub(crate) const TWICE: &[u8] = b"msgid \"a\"\nmsgstr \"x\"\n#, fuzzy\nmsgid \"a\"\nmsgstr \"y\"\n";

/// What a load of `TWICE` is refused for.
pub(crate) const DUPLICATE: StoreFault = StoreFault::Refused(LoadFault {
    kind: LoadKind::Duplicate,
    line: 4,
});

/// The counts of a text with one translated entry and no other.
pub(crate) const ONE: Accepted = Accepted::Po(Stats {
    translated: 1,
    fuzzy: 0,
    untranslated: 0,
});

/// A command of a table. Each load is for the domain `app` and a locale, unless its name says otherwise.
pub(crate) enum Step {
    /// A load of a PO text.
    Po(&'static str, &'static [u8]),
    /// A load of a PO text at the checked level.
    Checked(&'static str, &'static [u8]),
    /// A load of an MO file.
    Mo(&'static str, &'static [u8]),
    /// A load of `SALUT` for a domain that isn't a name.
    Misnamed,
    Publish,
}

/// A command, and what it is to be answered.
pub(crate) type Row = (Step, Outcome);

/// A load of a PO text with these options or, if there are none, of an MO file.
pub(crate) fn load_command(
    alloc: Global,
    domain: &str,
    locale: &str,
    text: &[u8],
    options: Option<Options>,
) -> Result<Command, AllocError> {
    let mut bytes = Vec::new(alloc);
    bytes.extend_from_slice(text)?;
    let source = match options {
        Some(options) => Source::Po { bytes, options },
        None => Source::Mo { bytes },
    };
    Ok(Command::Load(Job {
        domain: String::from_str(alloc, domain)?,
        locale: String::from_str(alloc, locale)?,
        source,
    }))
}

fn command_of(alloc: Global, step: &Step) -> Result<Command, AllocError> {
    match *step {
        Step::Po(locale, text) => load_command(alloc, "app", locale, text, Some(PLAIN)),
        Step::Checked(locale, text) => load_command(alloc, "app", locale, text, Some(CHECKED)),
        Step::Mo(locale, file) => load_command(alloc, "app", locale, file, None),
        Step::Misnamed => load_command(alloc, "a b", "fr", SALUT, Some(PLAIN)),
        Step::Publish => Ok(Command::Publish),
    }
}

pub(crate) fn commands_of(alloc: Global, rows: &[Row]) -> Result<Vec<Command>, AllocError> {
    let mut commands = Vec::new(alloc);
    for row in rows {
        commands.push(command_of(alloc, &row.0)?)?;
    }
    Ok(commands)
}

/// Whether two outcomes are the same. A publish that ran out of memory is never wanted.
fn is_same(one: &Outcome, other: &Outcome) -> bool {
    match (one, other) {
        (Outcome::Loaded(one), Outcome::Loaded(other)) => one == other,
        (Outcome::Refused(one), Outcome::Refused(other)) => one == other,
        (Outcome::Published(one), Outcome::Published(other)) => one == other,
        _ => false,
    }
}

/// Whether each command was answered as its row says, and no other was.
pub(crate) fn came_out(outcomes: &[Outcome], rows: &[Row]) -> bool {
    if outcomes.len() != rows.len() {
        return false;
    }
    for (outcome, row) in outcomes.iter().zip(rows.iter()) {
        if !is_same(outcome, &row.1) {
            return false;
        }
    }
    true
}

/// How a test has its queries looked up.
#[derive(Clone, Copy, PartialEq, Eq)]
pub(crate) enum Way {
    Ask,
    AskInto,
    Group,
    LearnFirst,
}

impl Way {
    /// Whether all queries are one request.
    pub(crate) fn is_whole(&self) -> bool {
        matches!(*self, Way::Group | Way::LearnFirst)
    }

    /// Whether a reply in this way names a notice if it is to, and one that isn't newer than its entry.
    pub(crate) fn is_told(&self, reply: &Reply) -> bool {
        match reply.learnt {
            Some(version) => *self == Way::LearnFirst && version <= reply.version,
            None => *self != Way::LearnFirst,
        }
    }
}

/// One way after another, and then all over again.
pub(crate) fn way_of(number: usize) -> Way {
    match number % 4 {
        0 => Way::Ask,
        1 => Way::AskInto,
        2 => Way::Group,
        _ => Way::LearnFirst,
    }
}

/// A query of a table, in the domain `app` and a locale.
#[derive(Clone, Copy)]
pub(crate) enum Asked {
    /// A msgid.
    Plain(&'static str, &'static str),
    /// A context and a msgid.
    Context(&'static str, &'static str, &'static str),
    /// A msgid, its plural, and a number.
    Number(&'static str, &'static str, &'static str, u64),
}

/// What `hi` is in French.
pub(crate) const HI: Asked = Asked::Plain("fr", "hi");

fn ask_of(alloc: Global, asked: Asked) -> Result<Ask, AllocError> {
    Ok(match asked {
        Asked::Plain(_, id) => Ask::Plain {
            id: String::from_str(alloc, id)?,
        },
        Asked::Context(_, context, id) => Ask::Context {
            context: String::from_str(alloc, context)?,
            id: String::from_str(alloc, id)?,
        },
        Asked::Number(_, id, plural, n) => Ask::Number {
            id: String::from_str(alloc, id)?,
            plural: String::from_str(alloc, plural)?,
            n,
        },
    })
}

pub(crate) fn query_of(alloc: Global, asked: Asked) -> Result<Query, AllocError> {
    let (Asked::Plain(locale, _) | Asked::Context(locale, _, _) | Asked::Number(locale, _, _, _)) =
        asked;
    Ok(Query {
        domain: String::from_str(alloc, "app")?,
        languages: String::from_str(alloc, locale)?,
        ask: ask_of(alloc, asked)?,
    })
}

fn queries_of(alloc: Global, asked: &[Asked]) -> Result<Vec<Query>, AllocError> {
    let mut queries = Vec::new(alloc);
    for one in asked {
        queries.push(query_of(alloc, *one)?)?;
    }
    Ok(queries)
}

/// Adds the requests that look up these queries: one group of them all, or one request for each.
pub(crate) fn push_requests(
    alloc: Global,
    requests: &mut Vec<Request>,
    way: Way,
    asked: &[Asked],
) -> Result<(), AllocError> {
    if way.is_whole() {
        let queries = queries_of(alloc, asked)?;
        requests.push(if way == Way::Group {
            Request::Group(queries)
        } else {
            Request::LearnFirst(queries)
        })?;
        return Ok(());
    }
    for one in asked {
        let query = query_of(alloc, *one)?;
        let request = if way == Way::Ask {
            Request::Ask(query)
        } else {
            Request::AskInto(query)
        };
        requests.push(request)?;
    }
    Ok(())
}

/// The life of a store with these commands and lists of requests (1 to 16 lists).
pub(crate) fn live<R: Threads + Wait + Sync, G: Gate + Sync>(
    rt: &R,
    alloc: Global,
    most: u64,
    commands: &[Command],
    lists: Vec<Vec<Request>>,
    gate: &G,
) -> Result<Life, LifeFault> {
    if lists.is_empty() || lists.len() > 16 {
        return Err(LifeFault::Unopened);
    }
    run_life(rt, alloc, most, commands, lists, gate)
}
