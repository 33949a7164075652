//! Loading one large catalogue, from its PO text and from its MO file.
use crate::messages::{PLAIN, po_text};
use crate::times::{now, print_time, since, sum_of};
use catalogue::compile;
use live_versions::Publisher;
use mo_file::write_mo;
use std::alloc::Global;
use std::io;
use std::rt::Clock;
use std::sync::Wait;
use std::time::Duration;

/// The number of messages in the catalogue.
const MESSAGES: u32 = 80_000;

/// How often the catalogue is loaded from each format.
const TURNS: u32 = 10;

/// The MO file of a PO text, or `None` if it doesn't compile.
fn mo_file_of(alloc: Global, text: &str) -> Option<Vec<u8>> {
    let Ok(compiled) = compile(alloc, text.as_bytes(), PLAIN) else {
        return None;
    };
    write_mo(alloc, &compiled.catalogue).ok()
}

/// Times loads of the PO text and of the MO file, in turn. Each load is published, which isn't timed.
fn run_loads<R: Print + Eprint + Clock + Wait + AllocGlobal>(
    rt: &R,
    publisher: &mut Publisher,
    text: &str,
    file: &[u8],
) -> io::Result<()> {
    let none = Some(Duration::from_millis(0));
    let (mut by_text, mut by_file) = (none, none);
    let mut wrong: u64 = 0;
    'turns: for _ in 0..TURNS {
        let start = now(rt);
        let loaded = publisher.load(rt.alloc(), "app", "fr", text.as_bytes(), PLAIN);
        by_text = sum_of(by_text, since(rt, start));
        let published = publisher.publish(rt);
        let start = now(rt);
        let read = publisher.load_mo(rt.alloc(), "app", "fr", file);
        by_file = sum_of(by_file, since(rt, start));
        let again = publisher.publish(rt);
        if loaded.is_err() || published.is_err() || read.is_err() || again.is_err() {
            wrong = wrong.saturating_add(1);
        }
    }
    let turns = u64::from(TURNS);
    print_time(rt, "loads of a PO text", by_text, turns, wrong)?;
    print_time(rt, "loads of its MO file", by_file, turns, wrong)
}

/// The PO text of the catalogue and its MO file, or why there are none.
fn made(alloc: Global) -> Result<(String, Vec<u8>), &'static str> {
    let Ok(text) = po_text(alloc, 0, MESSAGES) else {
        return Err("out of memory");
    };
    match mo_file_of(alloc, &text) {
        Some(file) => Ok((text, file)),
        None => Err("no catalogue"),
    }
}

/// Times loads of one large catalogue from both formats.
pub fn time_loads<R: Print + Eprint + Clock + Wait + AllocGlobal>(
    rt: &R,
    publisher: &mut Publisher,
) -> io::Result<()> {
    match made(rt.alloc()) {
        Ok((text, file)) => run_loads(rt, publisher, &text, &file),
        Err(why) => println!(rt; "{why}"),
    }
}
