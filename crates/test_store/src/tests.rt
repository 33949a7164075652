//! Worked examples. The expected values were written by hand, not copied from a run.
ghost use Rattle.std.specs.Prelude.{◌≡◌};

use crate::page::greets_in_threads;
use crate::serving::wait_for;
use catalogue::{LoadFault, LoadKind, Options, Stats};
use live_set::{Ask, Query};
use live_versions::{
    Ahead, AskFault, Closed, Lookups, OpenFault, Pinned, Publisher, StoreFault, Version,
    one_answer, open_store, versions_never_fall,
};
use mo_file::MoFault;
use std::alloc::{AllocError, Global};
use std::sync::atomic::AtomicU64;
use std::sync::atomic::Ordering::SeqCst;
use std::sync::{Arc, Wait};
use std::thread::{Threads, join, spawn, yield_now};

/// How many turns a thread waits for another before it gives up.
pub(crate) const TURNS: u32 = 10_000_000;

pub(crate) const PLAIN: Options = Options {
    checked: false,
    use_fuzzy: false,
};

pub(crate) const SALUT: &[u8] = b"msgid \"hi\"\nmsgstr \"salut\"\n";

const HALLO: &[u8] = b"msgid \"hi\"\nmsgstr \"hallo\"\n";

pub(crate) const TWICE: &[u8] = b"msgid \"a\"\nmsgstr \"x\"\n#, fuzzy\nmsgid \"a\"\nmsgstr \"y\"\n";

/// An MO file that translates `hi` to `hej` and `yes` to `ja`.
const HEJ: &[u8] = b"\xde\x12\x04\x95\0\0\0\0\x02\0\0\0\x1c\0\0\0\x2c\0\0\0\0\0\0\0\x3c\0\0\0\
    \x02\0\0\0\x3c\0\0\0\x03\0\0\0\x3f\0\0\0\x03\0\0\0\x43\0\0\0\x02\0\0\0\x47\0\0\0\
    hi\0yes\0hej\0ja\0";

/// An MO file that translates `a` to `x` and `ba` to `xx`. It is big-endian, has a hash table, and its strings overlap.
const BIG: &[u8] = b"\x95\x04\x12\xde\0\0\0\0\0\0\0\x02\0\0\0\x1c\0\0\0\x2c\0\0\0\x03\0\0\0\x3c\
    \0\0\0\x01\0\0\0\x49\0\0\0\x02\0\0\0\x48\0\0\0\x01\0\0\0\x4c\0\0\0\x02\0\0\0\x4b\
    \0\0\0\x02\0\0\0\x01\0\0\0\0ba\0xx\0";

const COUNTED: &[u8] =
    b"msgctxt \"k\"\nmsgid \"file\"\nmsgid_plural \"files\"\nmsgstr[0] \"fichier\"\nmsgstr[1] \"fichiers\"\n";

pub(crate) const ONE: Stats = Stats {
    translated: 1,
    fuzzy: 0,
    untranslated: 0,
};

pub(crate) const DUPLICATE: StoreFault = StoreFault::Refused(LoadFault {
    kind: LoadKind::Duplicate,
    line: 4,
});

pub(crate) const BOUNDS: StoreFault = StoreFault::RefusedMo(MoFault::Bounds);

/// Loads a PO text for a domain and a locale, and returns whether the result is the wanted one.
pub(crate) fn loads(
    alloc: Global,
    publisher: &mut Publisher,
    name: (&str, &str),
    text: &[u8],
    wanted: Result<Stats, StoreFault>,
) -> bool
    ensures { publisher.new.seen ≡ publisher.old.seen }
{
    publisher.load(alloc, name.0, name.1, text, PLAIN) == wanted
}

/// Loads `hi`, translated to `salut`, in French. Returns whether the load is accepted.
pub(crate) fn loads_hi(alloc: Global, publisher: &mut Publisher) -> bool
    ensures { publisher.new.seen ≡ publisher.old.seen }
{
    loads(alloc, publisher, ("app", "fr"), SALUT, Ok(ONE))
}

/// Loads an MO file for a domain and a locale, and returns whether the result is the wanted one.
fn loads_file(
    alloc: Global,
    publisher: &mut Publisher,
    name: (&str, &str),
    file: &[u8],
    wanted: Result<u64, StoreFault>,
) -> bool {
    publisher.load_mo(alloc, name.0, name.1, file) == wanted
}

/// Publishes, and returns whether the version is then this one.
pub(crate) fn publishes<R: Wait>(rt: &R, publisher: &mut Publisher, wanted: Version) -> bool
    ensures { publisher.new.seen.book ≡ publisher.old.seen.book }
{
    publisher.publish(rt) == Ok(wanted)
}

/// Whether an entry has this version, and translates `hi` to these texts in `fr`, `de` and `sv`.
fn is_shown(pinned: &Pinned<'_>, version: Version, texts: [&str; 3]) -> bool {
    let [french, german, swedish] = texts;
    pinned.version() == version
        && pinned.gettext("app", "fr", "hi") == french
        && pinned.gettext("app", "de", "hi") == german
        && pinned.gettext("app", "sv", "hi") == swedish
}

/// Enters, and returns whether the entry shows that. It can't wait.
fn shows(reader: &mut Lookups, version: Version, texts: [&str; 3]) -> bool
    ensures { reader.new.book ≡ reader.old.book }
{
    let Ok(pinned) = reader.enter() else {
        return false;
    };
    let same = is_shown(&pinned, version, texts);
    pinned.leave();
    same
}

/// Two loads and a publish, followed by a load that is refused.
fn publishes_two<R: Wait>(
    rt: &R,
    alloc: Global,
    publisher: &mut Publisher,
    reader: &mut Lookups,
) -> bool
    requires { reader.old.book ≡ publisher.old.seen.book }
{
    let french = loads_hi(alloc, publisher);
    let german = loads(alloc, publisher, ("app", "de"), HALLO, Ok(ONE));
    let before = (publisher.pending(), publisher.version()) == (2, 0);
    let first = publishes(rt, publisher, 2);
    let notice = publisher.tell();
    reader.learn(&notice);
    let shown = shows(reader, 2, ["salut", "hallo", "hi"]);
    let refused = loads(alloc, publisher, ("app", "fr"), TWICE, Err(DUPLICATE));
    let none = publisher.pending() == 0;
    let second = publishes(rt, publisher, 2);
    let still = shows(reader, 2, ["salut", "hallo", "hi"]);
    [
        french, german, before, first, shown, refused, none, second, still,
    ] == [true; 9]
}

/// A query for `hi` in a locale.
pub(crate) fn query(alloc: Global, locale: &str) -> Result<Query, AllocError> {
    Ok(Query {
        domain: String::from_str(alloc, "app")?,
        languages: String::from_str(alloc, locale)?,
        ask: Ask::Plain {
            id: String::from_str(alloc, "hi")?,
        },
    })
}

/// Asks, and returns whether the answer is `salut` at version 1.
fn answers(alloc: Global, reader: &mut Lookups, query: &Query) -> bool
    ensures { reader.new.book ≡ reader.old.book }
{
    match reader.ask(alloc, query) {
        Ok((version, text)) => version == 1 && text.as_str() == "salut",
        Err(_) => false,
    }
}

/// What is seen before a publish, after it, and with the notices of two publishes.
fn tells_two<R: Wait>(
    rt: &R,
    alloc: Global,
    publisher: &mut Publisher,
    reader: &mut Lookups,
    query: &Query,
) -> bool
    requires { reader.old.book ≡ publisher.old.seen.book }
{
    let empty = shows(reader, 0, ["hi"; 3]);
    let loaded = loads_hi(alloc, publisher);
    let published = publishes(rt, publisher, 1);
    let old = publisher.tell();
    reader.learn(&old);
    let seen = (old.version(), reader.seen()) == (1, 1);
    let shown = shows(reader, 1, ["salut", "hi", "hi"]);
    let again = shows(reader, 1, ["salut", "hi", "hi"]);
    let answered = answers(alloc, reader, query);
    let settled = reader.settle(&old) == Ok(1);
    let more = loads_hi(alloc, publisher);
    let second = publishes(rt, publisher, 2);
    let new = publisher.tell();
    reader.learn(&new);
    let ahead = reader.settle(&old) == Err(Ahead { seen: 2 });
    [
        empty, loaded, published, seen, shown, again, answered, settled, more, second, ahead,
    ] == [true; 11]
}

/// Loads four times: with a bad name, as the last load that the store takes, as one too many, and with a bad name
/// again.
fn refuses_in_order<R: Wait>(
    rt: &R,
    alloc: Global,
    publisher: &mut Publisher,
    reader: &mut Lookups,
) -> bool {
    let name = loads(
        alloc,
        publisher,
        ("a b", "fr"),
        SALUT,
        Err(StoreFault::BadName),
    );
    let first = loads_hi(alloc, publisher);
    let second = loads(
        alloc,
        publisher,
        ("app", "fr"),
        TWICE,
        Err(StoreFault::VersionsSpent),
    );
    let empty = loads(
        alloc,
        publisher,
        ("app", ""),
        SALUT,
        Err(StoreFault::BadName),
    );
    let pending = publisher.pending() == 1;
    let published = publishes(rt, publisher, 1);
    let shown = shows(reader, 1, ["salut", "hi", "hi"]);
    let again = shows(reader, 1, ["salut", "hi", "hi"]);
    one_answer();
    [name, first, second, empty, pending, published, shown, again] == [true; 8]
}

/// Loads a text and a file into a store that takes no loads.
fn takes_none<R: Wait>(
    rt: &R,
    alloc: Global,
    publisher: &mut Publisher,
    reader: &mut Lookups,
) -> bool {
    let spent = StoreFault::VersionsSpent;
    let text = loads(alloc, publisher, ("app", "fr"), SALUT, Err(spent));
    let file = loads_file(alloc, publisher, ("app", "fr"), HEJ, Err(spent));
    let none = publisher.pending() == 0;
    let published = publishes(rt, publisher, 0);
    let shown = shows(reader, 0, ["hi"; 3]);
    [text, file, none, published, shown] == [true; 5]
}

/// Asks into a text of the caller's, in a language that is loaded and in one that isn't.
fn replaces_text(reader: &mut Lookups, french: &Query, swedish: &Query, text: &mut String) -> bool {
    let first = reader.ask_into(french, text) == Ok(1);
    let is_salut = text.as_str() == "salut";
    let second = reader.ask_into(swedish, text) == Ok(1);
    let is_msgid = text.as_str() == "hi";
    [first, is_salut, second, is_msgid] == [true; 4]
}

/// Publishes, and then asks into a text.
fn answers_into<R: Wait>(
    rt: &R,
    alloc: Global,
    publisher: &mut Publisher,
    reader: &mut Lookups,
    french: &Query,
) -> bool {
    let loaded = loads_hi(alloc, publisher);
    let published = publishes(rt, publisher, 1);
    let Ok(mut text) = String::from_str(alloc, "a text of the caller's") else {
        return false;
    };
    let answered = match query(alloc, "sv") {
        Ok(swedish) => replaces_text(reader, french, &swedish, &mut text),
        Err(_) => false,
    };
    [loaded, published, answered] == [true; 3]
}

/// The bytes without the last one.
fn cut(bytes: &[u8]) -> &[u8] {
    match bytes.split_last() {
        Some((_, front)) => front,
        None => bytes,
    }
}

/// Loads an MO file, whole and cut short. This many loads are pending after each.
fn loads_whole(alloc: Global, publisher: &mut Publisher, file: &[u8], pending: u64) -> bool {
    let whole = loads_file(alloc, publisher, ("app", "sv"), file, Ok(2));
    let one = publisher.pending() == pending;
    let short = loads_file(alloc, publisher, ("app", "sv"), cut(file), Err(BOUNDS));
    let still = publisher.pending() == pending;
    [whole, one, short, still] == [true; 4]
}

/// Loads two files for one locale, and publishes them.
fn loads_files<R: Wait>(
    rt: &R,
    alloc: Global,
    publisher: &mut Publisher,
    reader: &mut Lookups,
) -> bool {
    let big = loads_whole(alloc, publisher, BIG, 1);
    let little = loads_whole(alloc, publisher, HEJ, 2);
    let published = publishes(rt, publisher, 2);
    let shown = shows(reader, 2, ["hi", "hi", "hej"]);
    [big, little, published, shown] == [true; 4]
}

/// Loads five times: with a bad name, a file that is refused, the last file that the store takes, one too many, and
/// with a bad name again.
fn refuses_files(alloc: Global, publisher: &mut Publisher) -> bool {
    let short = cut(HEJ);
    let bad = Err(StoreFault::BadName);
    let spent = Err(StoreFault::VersionsSpent);
    let name = loads_file(alloc, publisher, ("a b", "fr"), short, bad);
    let refused = loads_file(alloc, publisher, ("app", "fr"), short, Err(BOUNDS));
    let first = loads_file(alloc, publisher, ("app", "fr"), HEJ, Ok(2));
    let second = loads_file(alloc, publisher, ("app", "fr"), short, spent);
    let empty = loads_file(alloc, publisher, ("app", ""), short, bad);
    let pending = publisher.pending() == 1;
    [name, refused, first, second, empty, pending] == [true; 6]
}

/// Whether each of an entry's calls on a message with a context and a plural has its text, and one by a query.
fn finds_all(pinned: &Pinned<'_>, query: &Query) -> bool {
    pinned.look(query) == "hi"
        && pinned.gettext("app", "fr", "file") == "file"
        && pinned.pgettext("app", "fr", "k", "file") == "fichier"
        && pinned.ngettext("app", "fr", "file", "files", 2) == "files"
        && pinned.npgettext("app", "fr", "k", "file", "files", 1) == "fichier"
        && pinned.npgettext("app", "fr", "k", "file", "files", 2) == "fichiers"
}

/// Enters, and makes these calls.
fn looks_all(reader: &mut Lookups, query: &Query) -> bool {
    let Ok(pinned) = reader.enter() else {
        return false;
    };
    let found = finds_all(&pinned, query);
    pinned.leave();
    found
}

/// Publishes a message with a context and a plural, and looks it up.
fn answers_calls<R: Wait>(
    rt: &R,
    alloc: Global,
    publisher: &mut Publisher,
    reader: &mut Lookups,
    query: &Query,
) -> bool {
    let empty = shows(reader, 0, ["hi"; 3]);
    let loaded = loads(alloc, publisher, ("app", "fr"), COUNTED, Ok(ONE));
    let published = publishes(rt, publisher, 1);
    let found = looks_all(reader, query);
    [empty, loaded, published, found] == [true; 4]
}

/// What is done with a new store and its one reader.
#[derive(Clone, Copy)]
enum Case {
    PublishesTwo,
    TellsTwo,
    RefusesInOrder,
    TakesNone,
    AnswersInto,
    LoadsFiles,
    RefusesFiles,
    AnswersCalls,
}

/// Each case, with the number of loads that its store takes.
const CASES: &[(Case, u64, &str)] = &[
    (Case::PublishesTwo, u64::MAX, "loads are published together"),
    (Case::TellsTwo, 9, "notices are learnt"),
    (Case::RefusesInOrder, 1, "loads are refused in order"),
    (Case::TakesNone, 0, "a store may take no loads"),
    (Case::AnswersInto, 9, "answers take the place of a text"),
    (Case::LoadsFiles, 9, "files are loaded"),
    (Case::RefusesFiles, 1, "files are refused in order"),
    (Case::AnswersCalls, 9, "entries answer each call"),
];

fn is_right<R: Wait>(
    rt: &R,
    alloc: Global,
    case: Case,
    publisher: &mut Publisher,
    reader: &mut Lookups,
    query: &Query,
) -> bool
    requires { reader.old.book ≡ publisher.old.seen.book }
{
    match case {
        Case::PublishesTwo => publishes_two(rt, alloc, publisher, reader),
        Case::TellsTwo => tells_two(rt, alloc, publisher, reader, query),
        Case::RefusesInOrder => refuses_in_order(rt, alloc, publisher, reader),
        Case::TakesNone => takes_none(rt, alloc, publisher, reader),
        Case::AnswersInto => answers_into(rt, alloc, publisher, reader, query),
        Case::LoadsFiles => loads_files(rt, alloc, publisher, reader),
        Case::RefusesFiles => refuses_files(alloc, publisher),
        Case::AnswersCalls => answers_calls(rt, alloc, publisher, reader, query),
    }
}

/// Whether each call finds the store closed, the reader has still seen this version, and a text isn't changed.
fn finds_closed(alloc: Global, reader: &mut Lookups, query: &Query, seen: Version) -> bool {
    let Ok(mut text) = String::from_str(alloc, "hi") else {
        return false;
    };
    let asked = reader.ask(alloc, query) == Err(AskFault::Closed);
    let still = reader.seen() == seen;
    let is_closed = match reader.enter() {
        Ok(pinned) => {
            pinned.leave();
            false
        }
        Err(closed) => closed == Closed,
    };
    let into = reader.ask_into(query, &mut text) == Err(AskFault::Closed);
    let unchanged = text.as_str() == "hi" && reader.seen() == seen;
    [asked, still, is_closed, into, unchanged] == [true; 5]
}

/// Whether a case is right on a new store, and its reader finds the store closed after the end.
fn holds_with_one<R: Wait + AllocGlobal>(rt: &R, most: u64, case: Case, query: &Query) -> bool {
    let alloc = rt.alloc();
    let Ok((mut publisher, mut readers)) = open_store(rt, alloc, 1, most) else {
        return false;
    };
    let Some(mut reader) = readers.pop() else {
        publisher.end(rt);
        return false;
    };
    let right = is_right(rt, alloc, case, &mut publisher, &mut reader, query);
    let seen = reader.seen();
    publisher.end(rt);
    let closed = finds_closed(alloc, &mut reader, query, seen);
    let still = finds_closed(alloc, &mut reader, query, seen);
    right && closed && still
}

/// The name of the first case that isn't right.
fn wrong_case<R: Wait + AllocGlobal>(rt: &R, query: &Query) -> Option<&'static str> {
    for (case, most, name) in CASES {
        if !holds_with_one(rt, *most, *case, query) {
            return Some(*name);
        }
    }
    None
}

/// The number of readers that show `salut` at version 1, each in two entries.
fn count_shown(readers: &mut [Lookups]) -> u32 {
    let Some((reader, rest)) = readers.split_first_mut() else {
        return 0;
    };
    let first = shows(reader, 1, ["salut", "hi", "hi"]);
    let second = shows(reader, 1, ["salut", "hi", "hi"]);
    let shown = if first && second { 1 } else { 0 };
    count_shown(rest).saturating_add(shown)
}

/// Opens a store with `readers` readers, and returns how many of them show a publish.
fn open_and_show<R: Wait>(rt: &R, alloc: Global, readers: u32) -> Result<u32, OpenFault> {
    let (mut publisher, mut readers) = open_store(rt, alloc, readers, 9)?;
    let _ = loads_hi(alloc, &mut publisher);
    let _ = publishes(rt, &mut publisher, 1);
    let shown = count_shown(&mut readers);
    publisher.end(rt);
    Ok(shown)
}

/// The first number of readers with which that isn't so.
fn wrong_count<R: Wait>(rt: &R, alloc: Global) -> Option<u32> {
    for readers in 0..40u32 {
        let wanted = if readers == 0 || readers > 16 {
            Err(OpenFault::BadCount)
        } else {
            Ok(readers)
        };
        if open_and_show(rt, alloc, readers) != wanted {
            return Some(readers);
        }
    }
    None
}

#[test]
fn stores_have_one_to_sixteen_readers(rt: HostRuntime) {
    let wrong = wrong_count(&rt, rt.alloc());
    assert!(rt; wrong.is_none(), "with {wrong:?}");
}

/// Whether the refusal of a file is told.
fn is_told(alloc: Global) -> bool {
    match format!(in alloc; "{BOUNDS}") {
        Ok(told) => told.as_str() == "the MO file is refused: out of bounds",
        Err(_) => false,
    }
}

#[test]
fn refusals_are_told(rt: HostRuntime) {
    assert!(rt; is_told(rt.alloc()));
}

/// Enters, and returns whether the entry has version 1 and answers `salut` to the query. It can't wait.
fn looks_up(reader: &mut Lookups, query: &Query) -> bool {
    let Ok(pinned) = reader.enter() else {
        return false;
    };
    let found = pinned.version() == 1 && pinned.look(query) == "salut";
    pinned.leave();
    found
}

/// Enters and looks up with the second reader while the first one's entry lasts, and then once more with each. Neither
/// can wait.
fn side_by_side(first: &mut Lookups, second: &mut Lookups, query: &Query) -> bool {
    let Ok(pinned) = first.enter() else {
        return false;
    };
    let other = looks_up(second, query);
    let same = pinned.version() == 1 && pinned.look(query) == "salut";
    pinned.leave();
    let again = looks_up(first, query);
    let other_again = looks_up(second, query);
    [other, same, again, other_again] == [true; 4]
}

/// Lets both readers learn of a publish, and enter.
fn both_learn<R: Wait>(
    rt: &R,
    alloc: Global,
    publisher: &mut Publisher,
    first: &mut Lookups,
    second: &mut Lookups,
    query: &Query,
) -> bool
    requires first { first.old.book ≡ publisher.old.seen.book }
    requires second { second.old.book ≡ publisher.old.seen.book }
{
    let _ = loads_hi(alloc, publisher);
    let _ = publishes(rt, publisher, 1);
    let notice = publisher.tell();
    first.learn(&notice);
    second.learn(&notice);
    side_by_side(first, second, query)
}

/// Compiles if a publisher, a reader and a notice may go to another thread, and threads may share the notice.
fn hand_over<P: Send, L: Send, N: Send + Sync>(_: &P, _: &L, _: &N) {}

/// Enters `turns` times, and returns whether each entry had the text of its version and no version went back.
fn enter_many(reader: &mut Lookups, turns: u32) -> bool {
    let mut last = reader.seen();
    let mut good = true;
    'turns: for _ in 0..turns {
        let Ok(pinned) = reader.enter() else {
            return false;
        };
        let version = pinned.version();
        let wanted = if version == 0 { "hi" } else { "salut" };
        let right = pinned.gettext("app", "fr", "hi") == wanted;
        pinned.leave();
        good = good && right && version >= last;
        last = version;
    }
    good
}

/// Loads and publishes `turns` times, and returns the version then.
fn publish_many<R: Wait>(rt: &R, alloc: Global, publisher: &mut Publisher, turns: u32) -> Version {
    'turns: for _ in 0..turns {
        let _ = loads_hi(alloc, publisher);
        let _ = publisher.publish(rt);
    }
    publisher.version()
}

/// Publishes in one thread, while both readers enter in threads of their own.
fn never_go_back<R: Threads + Wait + Sync>(
    rt: &R,
    alloc: Global,
    publisher: &mut Publisher,
    first: &mut Lookups,
    second: &mut Lookups,
) -> bool {
    let notice = publisher.tell();
    hand_over(publisher, first, &notice);
    let (version, (one, other)) = join(
        rt,
        || publish_many(rt, alloc, publisher, 200),
        || join(
            rt,
            || enter_many(first, 20_000),
            || enter_many(second, 20_000),
        ),
    );
    let shown = shows(first, 200, ["salut", "hi", "hi"]);
    let other_shown = shows(second, 200, ["salut", "hi", "hi"]);
    versions_never_fall();
    version == 200 && [one, other, shown, other_shown] == [true; 4]
}

/// What is done with a new store and its two readers.
#[derive(Clone, Copy)]
enum Pair {
    OneLearns,
    BothLearn,
    NeverGoBack,
    Shop,
}

/// Each case, with the number of loads that its store takes.
const PAIRS: &[(Pair, u64, &str)] = &[
    (Pair::OneLearns, 9, "a closed store answers nothing"),
    (Pair::BothLearn, 9, "readers enter side by side"),
    (Pair::NeverGoBack, 5000, "readers never go back"),
    (Pair::Shop, 9, "the shop greets in threads"),
];

fn is_right_with_both<R: Threads + Wait + AllocGlobal + Sync>(
    rt: &R,
    case: Pair,
    publisher: &mut Publisher,
    first: &mut Lookups,
    second: &mut Lookups,
    query: &Query,
) -> bool
    requires first { first.old.book ≡ publisher.old.seen.book }
    requires second { second.old.book ≡ publisher.old.seen.book }
{
    let alloc = rt.alloc();
    match case {
        Pair::OneLearns => {
            let told = tells_two(rt, alloc, publisher, first, query);
            // The second reader has seen nothing.
            told && (first.seen(), second.seen()) == (2, 0)
        }
        Pair::BothLearn => both_learn(rt, alloc, publisher, first, second, query),
        Pair::NeverGoBack => never_go_back(rt, alloc, publisher, first, second),
        Pair::Shop => greets_in_threads(rt, publisher, first, second),
    }
}

/// Whether a case is right on a new store, and both readers find the store closed after the end.
fn holds_with_two<R: Threads + Wait + AllocGlobal + Sync>(
    rt: &R,
    most: u64,
    case: Pair,
    query: &Query,
) -> bool {
    let alloc = rt.alloc();
    let Ok((mut publisher, mut readers)) = open_store(rt, alloc, 2, most) else {
        return false;
    };
    let (Some(mut second), Some(mut first)) = (readers.pop(), readers.pop()) else {
        publisher.end(rt);
        return false;
    };
    let right = is_right_with_both(rt, case, &mut publisher, &mut first, &mut second, query);
    let seen = (first.seen(), second.seen());
    publisher.end(rt);
    let closed = [
        finds_closed(alloc, &mut first, query, seen.0),
        finds_closed(alloc, &mut second, query, seen.1),
        finds_closed(alloc, &mut first, query, seen.0),
        finds_closed(alloc, &mut second, query, seen.1),
    ];
    right && closed == [true; 4]
}

/// The name of the first pair that isn't right.
fn wrong_pair<R: Threads + Wait + AllocGlobal + Sync>(
    rt: &R,
    query: &Query,
) -> Option<&'static str> {
    for (case, most, name) in PAIRS {
        if !holds_with_two(rt, *most, *case, query) {
            return Some(*name);
        }
    }
    None
}

/// The names of the first case and of the first pair that aren't right.
fn wrong_ones<R: Threads + Wait + AllocGlobal + Sync>(
    rt: &R,
) -> (Option<&'static str>, Option<&'static str>) {
    match query(rt.alloc(), "fr") {
        Ok(query) => (wrong_case(rt, &query), wrong_pair(rt, &query)),
        Err(_) => (Some("no memory"), None),
    }
}

#[test]
fn stores_with_one_and_two_readers(rt: HostRuntime) {
    let (case, pair) = wrong_ones(&rt);
    assert!(rt; case.is_none() && pair.is_none(), "{case:?} {pair:?}");
}

/// Enters until the store is closed, and returns whether each entry showed `salut` at version 1 and nothing else.
fn shows_until_closed(reader: &mut Lookups) -> bool {
    'turns: for _ in 0..TURNS {
        let Ok(pinned) = reader.enter() else {
            return true;
        };
        let same = [
            pinned.version() == 1,
            pinned.gettext("app", "fr", "hi") == "salut",
            pinned.gettext("app", "de", "hi") == "hi",
        ];
        pinned.leave();
        if same != [true; 3] {
            return false;
        }
        yield_now();
    }
    false
}

/// Enters with the second reader until the store is closed, while the first reader's entry keeps the end from
/// returning. Afterwards both find the store closed.
fn stand_and_enter(first: &mut Lookups, second: &mut Lookups, stands: &AtomicU64) -> bool {
    let open = shows(second, 1, ["salut", "hi", "hi"]);
    let again = shows(second, 1, ["salut", "hi", "hi"]);
    let entered = first.enter();
    stands.store(1, SeqCst);
    let Ok(pinned) = entered else {
        return false;
    };
    let shown = shows_until_closed(second);
    let same = pinned.version() == 1 && pinned.gettext("app", "fr", "hi") == "salut";
    pinned.leave();
    let closed = !shows(first, 1, ["salut", "hi", "hi"]);
    [open, again, shown, same, closed] == [true; 5]
}

/// Ends the publisher once the first reader, in another thread, is in its entry. Returns what the readers found.
fn ends_beside<R: Threads + Wait>(
    rt: &R,
    publisher: Publisher,
    readers: (Lookups, Lookups),
    stands: &AtomicU64,
    there: Arc<AtomicU64>,
) -> bool {
    let (mut first, mut second) = readers;
    let Ok(entering) = spawn(rt, move || stand_and_enter(&mut first, &mut second, &there)) else {
        publisher.end(rt);
        return false;
    };
    wait_for(stands, 1);
    publisher.end(rt);
    entering.join(rt)
}

/// Whether the end of a store with a load pending shows its readers nothing of that load.
fn ends_unpublished<R: Threads + Wait + AllocGlobal>(
    rt: &R,
    stands: &AtomicU64,
    there: Arc<AtomicU64>,
) -> bool {
    let alloc = rt.alloc();
    let Ok((mut publisher, mut readers)) = open_store(rt, alloc, 2, 9) else {
        return false;
    };
    let (Some(second), Some(first)) = (readers.pop(), readers.pop()) else {
        publisher.end(rt);
        return false;
    };
    let published = publish_many(rt, alloc, &mut publisher, 1) == 1;
    let loaded = loads(alloc, &mut publisher, ("app", "de"), HALLO, Ok(ONE));
    let pending = publisher.pending() == 1;
    let shown = ends_beside(rt, publisher, (first, second), stands, there);
    [published, loaded, pending, shown] == [true; 4]
}

/// Whether that is so in a new store.
fn ends_in_threads<R: Threads + Wait + AllocGlobal>(rt: &R) -> bool {
    let Ok(stands) = Arc::new(rt.alloc(), AtomicU64::new(0)) else {
        return false;
    };
    match Arc::try_clone(&stands) {
        Ok(there) => ends_unpublished(rt, &stands, there),
        Err(_) => false,
    }
}

#[test]
fn the_end_publishes_nothing(rt: HostRuntime) {
    assert!(rt; ends_in_threads(&rt));
}
