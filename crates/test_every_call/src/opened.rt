//! Opens a store for each group of calls of a live store, and ends it.
ghost use Rattle.std.specs.Prelude.{◌≡◌, ◌≤◌, All, vec_len};

use crate::calls::{Calls, make_all};
use crate::rows::{ASK, PUBLISH, STORE_ROWS};
use crate::serving::{Case, serve_readers};
use crate::store::{Words, enter, load};
use crate::texts::SALUT;
use live_versions::{Lookups, OpenFault, Publisher, open_store};
use std::io;
use std::sync::Wait;
use std::thread::Threads;

/// What is done with a new store.
enum Work {
    /// An entry of each reader, and three loads.
    First,
    /// Calls with one reader.
    Calls(&'static Calls),
    /// A service of all readers.
    Serve(Case),
}

/// A store: the group of calls, what is printed before it is opened and after, the number of readers and of loads, and
/// what is done with it.
struct Store {
    group: &'static str,
    label: &'static str,
    opened: &'static str,
    readers: u32,
    most: u64,
    work: Work,
}

/// The stores, in the order in which they are opened.
const STORES: &[Store] = &[
    Store {
        group: "open_store",
        label: "open_store, 0 9, ",
        opened: "gives Ok",
        readers: 0,
        most: 9,
        work: Work::First,
    },
    Store {
        group: "open_store",
        label: "open_store, 17 9, ",
        opened: "gives Ok",
        readers: 17,
        most: 9,
        work: Work::First,
    },
    Store {
        group: "open_store",
        label: "open_store, 2 9, ",
        opened: "gives Ok",
        readers: 2,
        most: 9,
        work: Work::First,
    },
    Store {
        group: "open_store",
        label: "open_store, 16 9, ",
        opened: "gives Ok",
        readers: 16,
        most: 9,
        work: Work::First,
    },
    Store {
        group: "open_store",
        label: "open_store, 1 1, ",
        opened: "gives Ok",
        readers: 1,
        most: 1,
        work: Work::First,
    },
    Store {
        group: "publish",
        label: "open_store, 1, ",
        opened: "gives Ok\n",
        readers: 1,
        most: u64::MAX,
        work: Work::Calls(&PUBLISH),
    },
    Store {
        group: "ask",
        label: "open_store, 1, ",
        opened: "gives Ok\n",
        readers: 1,
        most: 9,
        work: Work::Calls(&ASK),
    },
    Store {
        group: "serve",
        label: "open_store, 2, ",
        opened: "gives Ok\n",
        readers: 2,
        most: 9,
        work: Work::Serve(Case {
            label: "serve, nothing, ",
            words: Words::Whole,
            pending: false,
            jobs: 0,
            queries: 0,
            again: false,
        }),
    },
    Store {
        group: "serve",
        label: "open_store, 2, ",
        opened: "gives Ok\n",
        readers: 2,
        most: 9,
        work: Work::Serve(Case {
            label: "serve, a job and three queries, ",
            words: Words::Whole,
            pending: false,
            jobs: 1,
            queries: 3,
            again: false,
        }),
    },
    Store {
        group: "serve",
        label: "open_store, 2, ",
        opened: "gives Ok\n",
        readers: 2,
        most: 9,
        work: Work::Serve(Case {
            label: "serve, three jobs, ",
            words: Words::Whole,
            pending: false,
            jobs: 3,
            queries: 0,
            again: false,
        }),
    },
    Store {
        group: "serve",
        label: "open_store, 2, ",
        opened: "gives Ok\n",
        readers: 2,
        most: 0,
        work: Work::Serve(Case {
            label: "serve, a job too many, ",
            words: Words::Whole,
            pending: false,
            jobs: 1,
            queries: 0,
            again: false,
        }),
    },
    Store {
        group: "serve",
        label: "open_store, 2, ",
        opened: "gives Ok\n",
        readers: 2,
        most: 9,
        work: Work::Serve(Case {
            label: "serve, a pending load, ",
            words: Words::Whole,
            pending: true,
            jobs: 0,
            queries: 0,
            again: false,
        }),
    },
    Store {
        group: "serve",
        label: "open_store, 2, ",
        opened: "gives Ok\n",
        readers: 2,
        most: 9,
        work: Work::Serve(Case {
            label: "serve, three queries, ",
            words: Words::Whole,
            pending: false,
            jobs: 0,
            queries: 3,
            again: false,
        }),
    },
    Store {
        group: "store_rows",
        label: "",
        opened: "",
        readers: 1,
        most: u64::MAX,
        work: Work::Calls(&STORE_ROWS),
    },
    Store {
        group: "serve_rows",
        label: "",
        opened: "",
        readers: 2,
        most: 9,
        work: Work::Serve(Case {
            label: "",
            words: Words::Short,
            pending: false,
            jobs: 1,
            queries: 3,
            again: true,
        }),
    },
];

/// Enters once with each reader, and loads once more than a small store takes.
fn first_calls<R: Print + AllocGlobal>(
    rt: &R,
    publisher: &mut Publisher,
    readers: &mut [Lookups],
) -> io::Result<()> {
    'readers: for reader in readers.iter_mut() {
        enter(rt, Words::Least, reader)?;
    }
    println!(rt)?;
    for domain in ["app", "app", "a b"] {
        load(rt, Words::Whole, publisher, domain, "fr", SALUT)?;
    }
    Ok(())
}

/// Makes calls with the last reader.
fn call_with_last<R: Wait + Print + AllocGlobal>(
    rt: &R,
    calls: &Calls,
    publisher: &mut Publisher,
    mut readers: Vec<Lookups>,
) -> io::Result<()>
    requires { All (λ l. l.book ≡ publisher.old.seen.book) readers.items }
{
    match readers.pop() {
        Some(mut reader) => make_all(rt, calls, publisher, &mut reader),
        None => Ok(()),
    }
}

/// Prints that a store is opened, and does its work.
fn work_on<R: Threads + Wait + Print + AllocGlobal + Sync>(
    rt: &R,
    store: &Store,
    publisher: &mut Publisher,
    mut readers: Vec<Lookups>,
) -> io::Result<()>
    requires book { All (λ l. l.book ≡ publisher.old.seen.book) readers.items }
    requires count { (1 ≤ vec_len readers) × (vec_len readers ≤ 16) }
{
    print!(rt; "{}", store.opened)?;
    match &store.work {
        Work::First => first_calls(rt, publisher, &mut readers),
        Work::Calls(calls) => call_with_last(rt, calls, publisher, readers),
        Work::Serve(case) => serve_readers(rt, case, publisher, readers),
    }
}

/// Prints why a store isn't opened.
fn print_unopened<R: Print>(rt: &R, store: &Store, fault: OpenFault) -> io::Result<()> {
    if store.label.is_empty() {
        println!(rt; "open: {fault}")
    } else {
        println!(rt; "gives Err({fault:?})")
    }
}

/// Opens a store, does its work, and ends it.
fn open<R: Threads + Wait + Print + AllocGlobal + Sync>(rt: &R, store: &Store) -> io::Result<()> {
    print!(rt; "{}", store.label)?;
    let (mut publisher, readers) = match open_store(rt, rt.alloc(), store.readers, store.most) {
        Ok(opened) => opened,
        Err(fault) => return print_unopened(rt, store, fault),
    };
    let done = work_on(rt, store, &mut publisher, readers);
    publisher.end(rt);
    done
}

/// The groups `open_store`, `publish`, `ask`, `serve`, `store_rows` and `serve_rows`.
pub fn open_all<R: Threads + Wait + Print + AllocGlobal + Sync>(
    rt: &R,
    word: &str,
) -> io::Result<()> {
    'stores: for store in STORES {
        if store.group == word {
            open(rt, store)?;
        }
    }
    Ok(())
}
