//! Random lists of commands and requests. Each outcome and reply is compared with a plain fold over the loads, which
//! knows of no store, no catalogue and no history.
//!
//! Nothing of a life is kept: its steps and its queries are made again, from the same numbers, whenever the fold needs
//! them.
use crate::made::{Asked, DUPLICATE, PLAIN, TWICE, Way, live, load_command, push_requests};
use catalogue::Stats;
use desks::{Accepted, OpenGate};
use life::{Client, Command, Outcome, Reply, Request};
use live_versions::{StoreFault, Version};
use std::alloc::{AllocError, Global};
use std::sync::Wait;
use std::test::Fail;
use std::thread::Threads;

/// How many lives there are.
const LIVES: u64 = 1000;

/// Numbers by a linear congruence; the upper bits of each state count.
#[derive(Clone, Copy)]
struct Random {
    state: u64,
}

/// What is wrong with a load, if anything is.
#[derive(Clone, Copy, PartialEq, Eq)]
enum Wrong {
    Nothing,
    Name,
    Text,
}

/// A load: its locale, a bit for each msgid that its text translates, the number that they are translated to, and what
/// is wrong with it.
#[derive(Clone, Copy)]
struct Load {
    locale: u64,
    ids: u64,
    number: u64,
    wrong: Wrong,
}

/// What a query looks up: a msgid in a locale.
#[derive(Clone, Copy)]
struct Lookup {
    locale: u64,
    id: u64,
}

fn locale_of(number: u64) -> &'static str {
    if number == 0 { "fr" } else { "de" }
}

fn id_of(number: u64) -> &'static str {
    match number {
        0 => "hi",
        1 => "yes",
        _ => "no",
    }
}

/// Whether the msgid of this number is among some.
fn is_among(ids: u64, id: u64) -> bool {
    let bit = match id {
        0 => 1,
        1 => 2,
        _ => 4,
    };
    ids & bit != 0
}

fn count_of(ids: u64) -> u32 {
    let mut count: u32 = 0;
    for id in 0..3 {
        if is_among(ids, id) {
            count = count.saturating_add(1);
        }
    }
    count
}

impl Random {
    /// A number below `count`, or 0.
    fn below(&mut self, count: u64) -> u64 {
        self.state = self
            .state
            .wrapping_mul(6_364_136_223_846_793_005)
            .wrapping_add(1_442_695_040_888_963_407);
        (self.state >> 33).checked_rem(count).unwrap_or(0)
    }

    /// A load of a text with this number, or a publish.
    fn step(&mut self, number: u64) -> Option<Load> {
        let load = Load {
            locale: self.below(2),
            ids: self.below(8),
            number,
            wrong: match self.below(6) {
                0 => Wrong::Name,
                1 => Wrong::Text,
                _ => Wrong::Nothing,
            },
        };
        if self.below(3) == 0 { None } else { Some(load) }
    }

    fn way(&mut self) -> Way {
        match self.below(4) {
            0 => Way::Ask,
            1 => Way::AskInto,
            2 => Way::Group,
            _ => Way::LearnFirst,
        }
    }

    fn lookup(&mut self) -> Lookup {
        Lookup {
            locale: self.below(2),
            id: self.below(3),
        }
    }
}

/// The text of a load, in which each msgid of it is translated to its number.
fn text_of(alloc: Global, load: Load) -> Result<Vec<u8>, AllocError> {
    let mut text = Vec::new(alloc);
    for id in 0..3 {
        if is_among(load.ids, id) {
            let (name, number) = (id_of(id), load.number);
            let entry = format!(in alloc; "msgid \"{name}\"\nmsgstr \"{number}\"\n")?;
            text.extend_from_slice(entry.as_bytes())?;
        }
    }
    Ok(text)
}

fn load_of(alloc: Global, given: Load) -> Result<Command, AllocError> {
    let locale = locale_of(given.locale);
    if given.wrong == Wrong::Text {
        return load_command(alloc, "app", locale, TWICE, Some(PLAIN));
    }
    let domain = if given.wrong == Wrong::Name {
        "a b"
    } else {
        "app"
    };
    let text = text_of(alloc, given)?;
    load_command(alloc, domain, locale, text.as_slice(), Some(PLAIN))
}

fn commands_of(alloc: Global, random: &mut Random) -> Result<Vec<Command>, AllocError> {
    let mut commands = Vec::new(alloc);
    let count = random.below(16);
    for number in 0..count {
        let command = match random.step(number) {
            Some(load) => load_of(alloc, load)?,
            None => Command::Publish,
        };
        commands.push(command)?;
    }
    Ok(commands)
}

/// Up to four queries.
fn asked_of(alloc: Global, random: &mut Random) -> Result<Vec<Asked>, AllocError> {
    let mut asked = Vec::new(alloc);
    let count = random.below(5);
    for _ in 0..count {
        let lookup = random.lookup();
        asked.push(Asked::Plain(locale_of(lookup.locale), id_of(lookup.id)))?;
    }
    Ok(asked)
}

/// The requests of a reader: up to four batches of queries, each looked up in one way.
fn requests_of(alloc: Global, random: &mut Random) -> Result<Vec<Request>, AllocError> {
    let mut requests = Vec::new(alloc);
    let batches = random.below(5);
    for _ in 0..batches {
        let way = random.way();
        let asked = asked_of(alloc, random)?;
        push_requests(alloc, &mut requests, way, asked.as_slice())?;
    }
    Ok(requests)
}

fn lists_of(
    alloc: Global,
    random: &mut Random,
    readers: u64,
) -> Result<Vec<Vec<Request>>, AllocError> {
    let mut lists = Vec::new(alloc);
    for _ in 0..readers {
        lists.push(requests_of(alloc, random)?)?;
    }
    Ok(lists)
}

/// What comes of a step.
#[derive(Clone, Copy)]
enum Came {
    Accepted(Load),
    Refused(StoreFault),
    Published(Version),
}

/// Whether this is the outcome of a step that came to that.
fn is_outcome(came: Came, outcome: &Outcome) -> bool {
    match (came, outcome) {
        (Came::Accepted(load), Outcome::Loaded(counts)) => {
            *counts
                == Accepted::Po(Stats {
                    translated: count_of(load.ids),
                    fuzzy: 0,
                    untranslated: 0,
                })
        }
        (Came::Refused(fault), Outcome::Refused(it)) => fault == *it,
        (Came::Published(version), Outcome::Published(it)) => version == *it,
        _ => false,
    }
}

/// The fold, before the first step or later: the numbers that the next step is made of, how many steps there are in
/// all and how many were taken, and how many loads were accepted.
#[derive(Clone, Copy)]
struct Fold {
    most: u64,
    random: Random,
    steps: u64,
    taken: u64,
    accepted: u64,
}

impl Fold {
    fn new(most: u64, mut random: Random) -> Fold {
        let steps = random.below(16);
        Fold {
            most,
            random,
            steps,
            taken: 0,
            accepted: 0,
        }
    }

    /// Why a load is refused, if it is.
    fn refusal(&self, load: Load) -> Option<StoreFault> {
        match load.wrong {
            Wrong::Name => Some(StoreFault::BadName),
            _ if self.accepted >= self.most => Some(StoreFault::VersionsSpent),
            Wrong::Text => Some(DUPLICATE),
            Wrong::Nothing => None,
        }
    }

    /// Takes the next step.
    fn take(&mut self) -> Came {
        let step = self.random.step(self.taken);
        self.taken = self.taken.saturating_add(1);
        let Some(load) = step else {
            return Came::Published(self.accepted);
        };
        if let Some(fault) = self.refusal(load) {
            return Came::Refused(fault);
        }
        self.accepted = self.accepted.saturating_add(1);
        Came::Accepted(load)
    }

    /// Whether the steps have these outcomes.
    fn came_out(mut self, outcomes: &[Outcome]) -> bool {
        for outcome in outcomes {
            if !is_outcome(self.take(), outcome) {
                return false;
            }
        }
        self.taken == self.steps
    }

    fn was_published(mut self, version: Version) -> bool {
        let mut found = version == 0;
        for _ in 0..self.steps {
            if let Came::Published(it) = self.take() {
                found = found || it == version;
            }
        }
        found
    }

    /// The number that a msgid is translated to by the last of the first `version` loads for a locale.
    fn number(mut self, version: Version, lookup: Lookup) -> Option<u64> {
        let mut found = None;
        for _ in 0..self.steps {
            if let Came::Accepted(load) = self.take() {
                if self.accepted <= version && load.locale == lookup.locale {
                    found = if is_among(load.ids, lookup.id) {
                        Some(load.number)
                    } else {
                        None
                    };
                }
            }
        }
        found
    }

    /// Whether this text is the answer to a query at a version.
    fn gives(self, version: Version, lookup: Lookup, text: &str) -> bool {
        match self.number(version, lookup) {
            Some(number) => text.parse().ok() == Some(number),
            None => text == id_of(lookup.id),
        }
    }

    /// Whether a reply in this way names a notice if it is to, and one that was left by then.
    fn tells(self, way: Way, reply: &Reply) -> bool {
        match reply.learnt {
            Some(version) => way.is_told(reply) && self.was_published(version),
            None => way.is_told(reply),
        }
    }

    /// Whether this is the reply to the next `count` queries: all of them at one version that was published, and not
    /// below `least`.
    fn answers(self, random: &mut Random, count: u64, reply: &Reply, least: Version) -> bool {
        if reply.version < least
            || !self.was_published(reply.version)
            || reply.texts.len() as u64 != count
        {
            return false;
        }
        for text in reply.texts.as_slice() {
            if !self.gives(reply.version, random.lookup(), text.as_str()) {
                return false;
            }
        }
        true
    }

    /// Whether these are the replies to the next reader's requests.
    fn answers_all(self, random: &mut Random, replies: &[Reply]) -> bool {
        let mut rest = replies;
        let mut least = 0;
        let batches = random.below(5);
        for _ in 0..batches {
            let (way, count) = (random.way(), random.below(5));
            let (requests, queries) = if way.is_whole() {
                (1, count)
            } else {
                (count, 1)
            };
            for _ in 0..requests {
                let Some((reply, others)) = rest.split_first() else {
                    return false;
                };
                if !self.tells(way, reply) || !self.answers(random, queries, reply, least) {
                    return false;
                }
                least = reply.version;
                rest = others;
            }
        }
        rest.is_empty()
    }

    /// Whether these are the clients of `readers` readers.
    fn answers_each(self, mut random: Random, readers: u64, clients: &[Client]) -> bool {
        for client in clients {
            if !self.answers_all(&mut random, client.replies.as_slice()) {
                return false;
            }
        }
        clients.len() as u64 == readers
    }
}

/// Whether a random life is as the fold says.
fn is_right<R: Threads + Wait + Sync>(
    rt: &R,
    alloc: Global,
    mut random: Random,
) -> Result<bool, AllocError> {
    let most = random.below(12);
    let fold = Fold::new(most, random);
    let commands = commands_of(alloc, &mut random)?;
    let readers = random.below(4).saturating_add(1);
    let asked = random;
    let lists = lists_of(alloc, &mut random, readers)?;
    match live(rt, alloc, most, commands.as_slice(), lists, &OpenGate) {
        Ok(life) => Ok(
            fold.came_out(life.outcomes.as_slice())
                && fold.answers_each(asked, readers, life.clients.as_slice()),
        ),
        Err(_) => Ok(false),
    }
}

#[test]
fn a_thousand_random_lives(rt: HostRuntime) -> Result<(), Fail> {
    for life in 0..LIVES {
        assert!(rt;
            is_right(&rt, rt.alloc(), Random { state: life })?,
            "{life}"
        );
    }
    Ok(())
}
