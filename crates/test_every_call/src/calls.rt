//! Calls with one reader of a live store, as steps, and the function that walks the steps.
ghost use Rattle.std.specs.Prelude.{◌≡◌};

use crate::store::{Way, Words, ask, enter, learn, load, load_mo, publish, settle};
use live_versions::{Lookups, Notice, Publisher};
use std::io;
use std::sync::Wait;

/// A call of a live store.
pub enum Step {
    /// A load of a PO text: its domain, its locale and the text.
    Load(&'static str, &'static str, &'static str),
    /// A load of an MO file for Swedish: its domain, the file, and how many bytes at its end are left out.
    LoadMo(&'static str, &'static [u8], usize),
    Publish,
    Enter,
    /// The reader learns of what was published before the first step.
    Learn,
    /// The reader learns of what is published now.
    LearnNow,
    /// The reader settles with what was published before the first step.
    Settle,
    Ask(Way),
    /// Prints what the reader has seen.
    Seen,
}

/// Calls with one reader, and how their results are printed.
pub struct Calls {
    pub words: Words,
    /// The steps to the first notice, and those from there on.
    pub steps: [&'static [Step]; 2],
}

/// Learns of what is published now.
fn learn_now<R: Print>(
    rt: &R,
    words: Words,
    publisher: &mut Publisher,
    reader: &mut Lookups,
) -> io::Result<()>
    requires { reader.old.book ≡ publisher.old.seen.book }
    ensures publisher { publisher.new.seen.book ≡ publisher.old.seen.book }
    ensures reader { reader.new.book ≡ reader.old.book }
{
    let notice = publisher.tell();
    learn(rt, words, reader, &notice)
}

/// Makes a call.
fn make<R: Wait + Print + AllocGlobal>(
    rt: &R,
    words: Words,
    step: &Step,
    publisher: &mut Publisher,
    reader: &mut Lookups,
    notice: &Notice,
) -> io::Result<()>
    requires reader { reader.old.book ≡ publisher.old.seen.book }
    requires notice { notice.now.book ≡ publisher.old.seen.book }
    ensures publisher { publisher.new.seen.book ≡ publisher.old.seen.book }
    ensures reader { reader.new.book ≡ reader.old.book }
{
    match step {
        Step::Load(domain, locale, text) => load(rt, words, publisher, domain, locale, text),
        Step::LoadMo(domain, file, cut) => load_mo(rt, words, publisher, domain, file, *cut),
        Step::Publish => publish(rt, words, publisher),
        Step::Enter => enter(rt, words, reader),
        Step::Learn => learn(rt, words, reader, notice),
        Step::LearnNow => learn_now(rt, words, publisher, reader),
        Step::Settle => settle(rt, reader, notice),
        Step::Ask(way) => ask(rt, *way, reader),
        Step::Seen => println!(rt; "  has seen {}", reader.seen()),
    }
}

/// Makes the calls of some steps, with a notice of what is published before them.
fn walk<R: Wait + Print + AllocGlobal>(
    rt: &R,
    words: Words,
    steps: &[Step],
    publisher: &mut Publisher,
    reader: &mut Lookups,
) -> io::Result<()>
    requires { reader.old.book ≡ publisher.old.seen.book }
    ensures publisher { publisher.new.seen.book ≡ publisher.old.seen.book }
    ensures reader { reader.new.book ≡ reader.old.book }
{
    let notice = publisher.tell();
    'steps: for step in steps {
        make(rt, words, step, publisher, reader, &notice)?;
    }
    Ok(())
}

/// Makes calls with one reader.
pub fn make_all<R: Wait + Print + AllocGlobal>(
    rt: &R,
    calls: &Calls,
    publisher: &mut Publisher,
    reader: &mut Lookups,
) -> io::Result<()>
    requires { reader.old.book ≡ publisher.old.seen.book }
{
    let [first, rest] = calls.steps;
    walk(rt, calls.words, first, publisher, reader)?;
    walk(rt, calls.words, rest, publisher, reader)
}
