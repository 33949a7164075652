//! Makes each call that allocates, and prints its whole result on a line of its own with what it left. Printing doesn't
//! allocate, so the tests can refuse each of the program's requests for memory in turn.
//!
//! The groups `store_rows` and `serve_rows` make many calls of one store, and print in short what each answered.
//!
//! An argument names the group of calls to make; without one it makes all of them.
#![tactic(auto)]

mod calls;
mod files;
mod formats;
mod headers;
mod maps;
mod opened;
mod printing;
mod rows;
mod serving;
mod sets;
mod store;
mod texts;

use std::sync::Wait;
use std::thread::Threads;
use std::{env, io};

/// The arguments, in the order in which all calls are made.
const WORDS: &[&str] = &[
    "read_po",
    "parse_expr",
    "read_rule",
    "signature",
    "compile",
    "from_sorted",
    "from_file",
    "write_mo",
    "read_mo",
    "check",
    "reread",
    "name",
    "absorb",
    "try_clone",
    "open_store",
    "publish",
    "ask",
    "serve",
    "store_rows",
    "serve_rows",
];

/// Makes the calls of one group.
fn call<R: Threads + Wait + Print + AllocGlobal + Sync>(rt: &R, word: &str) -> io::Result<()> {
    match word {
        "read_po" => texts::read_all(rt),
        "parse_expr" => headers::parse_all(rt),
        "read_rule" => headers::read_all(rt),
        "signature" => formats::list_all(rt),
        "compile" => maps::compile_all(rt),
        "from_sorted" => maps::sorted_all(rt),
        "from_file" | "reread" => files::call_all(rt, word),
        "write_mo" => files::write_all(rt),
        "read_mo" | "check" => files::read_all(rt, word),
        "name" => sets::name_all(rt),
        "absorb" => sets::absorb_all(rt),
        "try_clone" => sets::clone_all(rt),
        "open_store" | "publish" | "ask" | "serve" | "store_rows" | "serve_rows" => {
            opened::open_all(rt, word)
        }
        _ => println!(rt; "no calls have this name"),
    }
}

/// Makes the calls of all groups.
fn call_all<R: Threads + Wait + Print + AllocGlobal + Sync>(rt: &R) -> io::Result<()> {
    for word in WORDS {
        call(rt, word)?;
    }
    Ok(())
}

fn main(rt: HostRuntime) -> io::Result<()> {
    let Ok(mut words) = env::args(&rt) else {
        return println!(rt; "words: out of memory");
    };
    match words.nth(1) {
        Some(word) => call(&rt, word.as_str()),
        None => call_all(&rt),
    }
}
