//! Four readers look up in a live store while two catalogues are replaced over and over. Each text is the number of its
//! version, so that a reader sees whether a text is of the version that it entered, and whether a version went back.
use crate::messages::PLAIN;
use crate::times::{is_within, now};
use live_versions::{Lookups, Publisher, Version};
use std::alloc::{AllocError, Global};
use std::io;
use std::rt::Clock;
use std::sync::Wait;
use std::sync::atomic::AtomicBool;
use std::sync::atomic::Ordering::SeqCst;
use std::thread::{Threads, join, map_vec};

/// What was counted.
#[derive(Clone, Copy, Default)]
pub struct Counts {
    pub answers: u64,
    /// Texts of another version than their answer's.
    pub mixed: u64,
    /// Answers whose version was below the one before.
    pub fallen: u64,
    /// Answers and outcomes that are missing, and entries and jobs that were refused.
    pub lost: u64,
}

impl Counts {
    fn and(self, other: Counts) -> Counts {
        Counts {
            answers: self.answers.saturating_add(other.answers),
            mixed: self.mixed.saturating_add(other.mixed),
            fallen: self.fallen.saturating_add(other.fallen),
            lost: self.lost.saturating_add(other.lost),
        }
    }

    /// Counts an answer of `version`, whose texts have these versions and which is behind an answer of `last`.
    pub fn add(&mut self, version: Version, texts: &[Version], last: Version) {
        self.answers = self.answers.saturating_add(1);
        if texts.iter().any(|text| *text != version) {
            self.mixed = self.mixed.saturating_add(1);
        }
        if version < last {
            self.fallen = self.fallen.saturating_add(1);
        }
    }
}

/// A PO text with one message, the number of a version.
pub fn text_of(alloc: Global, version: Version) -> Result<String, AllocError> {
    format!(in alloc; "msgid \"message 0\"\nmsgstr \"{version}\"\n")
}

/// The version whose number a text is; 0 if it is a msgid.
pub fn version_in(text: &str) -> Version {
    let number: Option<u64> = text.parse().ok();
    number.unwrap_or(0)
}

/// Enters until `stop` is set.
fn read(reader: &mut Lookups, stop: &AtomicBool) -> Counts {
    let mut counts = Counts::default();
    let mut last = 0;
    'turns: for _ in 0..u64::MAX {
        if stop.load(SeqCst) {
            break;
        }
        let Ok(pinned) = reader.enter() else {
            counts.lost = counts.lost.saturating_add(1);
            continue;
        };
        let version = pinned.version();
        let shop = version_in(pinned.gettext("shop", "fr", "message 0"));
        let mail = version_in(pinned.gettext("mail", "fr", "message 0"));
        pinned.leave();
        counts.add(version, &[shop, mail], last);
        last = version;
    }
    counts
}

/// Replaces both catalogues by ones with this version, in one publish.
fn replace_both<R: Wait + AllocGlobal>(
    rt: &R,
    publisher: &mut Publisher,
    version: Version,
) -> Result<bool, AllocError> {
    let text = text_of(rt.alloc(), version)?;
    let shop = publisher.load(rt.alloc(), "shop", "fr", text.as_bytes(), PLAIN);
    let mail = publisher.load(rt.alloc(), "mail", "fr", text.as_bytes(), PLAIN);
    let published = publisher.publish(rt);
    Ok(shop.is_ok() && mail.is_ok() && published == Ok(version))
}

/// Publishes for `seconds`, and then sets `stop`. Answers how many publishes went wrong.
fn publish<R: Wait + Clock + AllocGlobal>(
    rt: &R,
    publisher: &mut Publisher,
    seconds: u64,
    stop: &AtomicBool,
) -> u64 {
    let start = now(rt);
    let mut wrong: u64 = 0;
    'turns: for turn in 1..1_000_000_000_u64 {
        if replace_both(rt, publisher, 2 * turn) != Ok(true) {
            wrong = wrong.saturating_add(1);
        }
        if !is_within(rt, start, seconds) {
            break;
        }
    }
    stop.store(true, SeqCst);
    wrong
}

/// Publishes beside the readers. Answers how many publishes went wrong, and what each reader counted.
fn run_all<R: Threads + Wait + Clock + AllocGlobal + Sync>(
    rt: &R,
    publisher: &mut Publisher,
    readers: Vec<Lookups>,
    seconds: u64,
) -> (u64, Result<Vec<Counts>, AllocError>) {
    let stop = AtomicBool::new(false);
    join(
        rt,
        || publish(rt, publisher, seconds, &stop),
        || map_vec(rt, readers, &|mut reader: Lookups| read(&mut reader, &stop)),
    )
}

/// Prints what went wrong, and how much was done.
fn print_counts<R: Print + Eprint>(
    rt: &R,
    seconds: u64,
    wrong: u64,
    publishes: u64,
    all: &[Counts],
) -> io::Result<()> {
    let Counts {
        answers,
        mixed,
        fallen,
        lost,
    } = all.iter().fold(Counts::default(), |sum, one| sum.and(*one));
    println!(rt;
        "{wrong} wrong publishes, {fallen} versions fell, {mixed} mixed texts, {lost} without an entry"
    )?;
    eprintln!(rt; "{seconds} s: {answers} entries, {publishes} publishes")
}

/// Publishes and looks up for `seconds`, and prints what went wrong.
pub fn soak<R: Print + Eprint + Threads + Wait + Clock + AllocGlobal + Sync>(
    rt: &R,
    publisher: &mut Publisher,
    readers: Vec<Lookups>,
    seconds: u64,
) -> io::Result<()> {
    let (wrong, found) = run_all(rt, publisher, readers, seconds);
    match found {
        Ok(counts) => print_counts(rt, seconds, wrong, publisher.version() / 2, &counts),
        Err(_) => println!(rt; "no readers"),
    }
}
