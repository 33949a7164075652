//! Worked scripts, played by `run_life` and by `run_snapshots`. A gate holds the publisher and the readers, so each
//! reply is of one known version. The outcomes and texts were written by hand, or are those that `catserve` answers.
use crate::held::{Held, LAST};
use crate::made::{
    Asked, BONJOUR, DUPLICATE, HI, ONE, Row, SALUT, Step, TWICE, Way, came_out, commands_of, live,
    push_requests, way_of,
};
use catalogue::{LoadFault, LoadKind};
use desks::Accepted;
use life::snapshots::{self, run_snapshots};
use life::{Client, Command, Outcome, Reply, Request};
use live_versions::{StoreFault, Version};
use std::alloc::{AllocError, Global};
use std::sync::Wait;
use std::test::Fail;
use std::thread::Threads;

/// Queries that a reader looks up once `after` publishes are done, and before the next one.
struct Round {
    after: u64,
    asked: &'static [Asked],
}

/// What a reader looks up, and the version and the text of each answer.
struct Reader {
    rounds: &'static [Round],
    said: &'static [(Version, &'static str)],
}

/// Commands with their outcomes, the readers, and the version at the end. The last command is a publish of nothing.
pub(crate) struct Script {
    pub(crate) rows: &'static [Row],
    readers: &'static [Reader],
    end: Version,
}

/// A script and its number of readers, who take the script's readers in turn. The first one looks up in the way of the
/// number `first`.
#[derive(Clone, Copy)]
pub(crate) struct Play {
    pub(crate) script: &'static Script,
    pub(crate) readers: usize,
    first: usize,
}

impl Play {
    fn reader(&self, place: usize) -> Option<&'static Reader> {
        let readers = self.script.readers;
        match place.checked_rem(readers.len()) {
            Some(place) => readers.get(place),
            None => None,
        }
    }

    fn way(&self, place: usize) -> Way {
        way_of(self.first.wrapping_add(place))
    }

    /// How many publishes a request of a reader comes after.
    pub(crate) fn after(&self, place: usize, index: usize) -> u64 {
        let Some(reader) = self.reader(place) else {
            return LAST;
        };
        let way = self.way(place);
        let mut end: usize = 0;
        for round in reader.rounds {
            let requests = if way.is_whole() { 1 } else { round.asked.len() };
            end = end.saturating_add(requests);
            if index < end {
                return round.after;
            }
        }
        LAST
    }
}

fn push_rounds(
    alloc: Global,
    requests: &mut Vec<Request>,
    way: Way,
    rounds: &[Round],
) -> Result<(), AllocError> {
    for round in rounds {
        push_requests(alloc, requests, way, round.asked)?;
    }
    Ok(())
}

/// The requests of a reader. The last one is an empty group.
fn requests_of(alloc: Global, play: Play, place: usize) -> Result<Vec<Request>, AllocError> {
    let mut requests = Vec::new(alloc);
    if let Some(reader) = play.reader(place) {
        push_rounds(alloc, &mut requests, play.way(place), reader.rounds)?;
    }
    requests.push(Request::Group(Vec::new(alloc)))?;
    Ok(requests)
}

fn lists_of(alloc: Global, play: Play) -> Result<Vec<Vec<Request>>, AllocError> {
    let mut lists = Vec::new(alloc);
    for place in 0..play.readers {
        lists.push(requests_of(alloc, play, place)?)?;
    }
    Ok(lists)
}

/// Whether a reply names a notice if it is to. Since the publisher is held, the newest one is of the reply's version.
fn learns(way: Way, reply: &Reply) -> bool {
    match reply.learnt {
        Some(version) => way == Way::LearnFirst && version == reply.version,
        None => way != Way::LearnFirst || reply.texts.is_empty(),
    }
}

/// Whether a reader's texts are those of the script, each at its version.
fn says(play: Play, place: usize, replies: &[Reply]) -> bool {
    let Some(reader) = play.reader(place) else {
        return false;
    };
    let mut index: usize = 0;
    for reply in replies {
        if !learns(play.way(place), reply) {
            return false;
        }
        for text in reply.texts.as_slice() {
            match reader.said.get(index) {
                Some((version, said)) if *version == reply.version && *said == text.as_str() => {}
                _ => return false,
            }
            index = index.saturating_add(1);
        }
    }
    index == reader.said.len()
}

/// Whether each client of a life says what it is to say, and has seen the end.
fn all_lived(play: Play, clients: &[Client]) -> bool {
    for (place, client) in clients.iter().enumerate() {
        if !says(play, place, client.replies.as_slice())
            || client.reader.seen() != play.script.end
        {
            return false;
        }
    }
    clients.len() == play.readers
}

/// Whether each client of a run of snapshots says what it is to say, and is at the end.
fn all_ran(play: Play, clients: &[snapshots::Client]) -> bool {
    for (place, client) in clients.iter().enumerate() {
        let reader = &client.reader;
        if !says(play, place, client.replies.as_slice())
            || reader.version() != play.script.end
            || !reader.is_current()
        {
            return false;
        }
    }
    clients.len() == play.readers
}

fn is_life<R: Threads + Wait + Sync>(
    rt: &R,
    alloc: Global,
    commands: &[Command],
    lists: Vec<Vec<Request>>,
    gate: &Held,
) -> bool {
    let play = gate.play;
    match live(rt, alloc, 9, commands, lists, gate) {
        Ok(life) => {
            came_out(life.outcomes.as_slice(), play.script.rows)
                && all_lived(play, life.clients.as_slice())
        }
        Err(_) => false,
    }
}

fn is_run<R: Threads + Sync>(
    rt: &R,
    alloc: Global,
    commands: &[Command],
    lists: Vec<Vec<Request>>,
    gate: &Held,
) -> bool {
    if lists.len() > 16 {
        return false;
    }
    let play = gate.play;
    match run_snapshots(rt, alloc, commands, lists, gate) {
        Ok(run) => {
            came_out(run.outcomes.as_slice(), play.script.rows)
                && all_ran(play, run.clients.as_slice())
        }
        Err(_) => false,
    }
}

/// A kind of store.
#[derive(Clone, Copy)]
enum Store {
    Live,
    Snapshots,
}

/// Whether a store answers a script as it says.
fn is_played<R: Threads + Wait + Sync>(
    rt: &R,
    alloc: Global,
    store: Store,
    play: Play,
) -> Result<bool, AllocError> {
    let commands = commands_of(alloc, play.script.rows)?;
    let gate = Held::new(alloc, play)?;
    let lists = lists_of(alloc, play)?;
    let played = match store {
        Store::Live => is_life(rt, alloc, commands.as_slice(), lists, &gate),
        Store::Snapshots => is_run(rt, alloc, commands.as_slice(), lists, &gate),
    };
    Ok(played && gate.held_all())
}

const HALLO: &[u8] = b"msgid \"hi\"\nmsgstr \"hallo\"\n";

/// An MO file of `hi` to `salut`.
const SALUT_FILE: &[u8] =
    b"\xde\x12\x04\x95\0\0\0\0\x01\0\0\0\x1c\0\0\0\x24\0\0\0\0\0\0\0\x2c\0\0\0\
    \x02\0\0\0\x2c\0\0\0\x05\0\0\0\x2f\0\0\0hi\0salut\0";

/// `tests/scripts/stored/rounds_with_file.script`, whose answers are stored next to it.
const STORED: &Script = &Script {
    rows: &[
        (Step::Po("fr", SALUT), Outcome::Loaded(ONE)),
        (Step::Checked("de", HALLO), Outcome::Loaded(ONE)),
        (Step::Publish, Outcome::Published(2)),
        (Step::Po("fr", BONJOUR), Outcome::Loaded(ONE)),
        (Step::Po("fr", TWICE), Outcome::Refused(DUPLICATE)),
        (
            Step::Mo("fr_CA", SALUT_FILE),
            Outcome::Loaded(Accepted::Mo(1)),
        ),
        (Step::Publish, Outcome::Published(4)),
        (Step::Publish, Outcome::Published(4)),
    ],
    readers: &[
        Reader {
            rounds: &[
                Round {
                    after: 1,
                    asked: &[HI, Asked::Number("sv", "file", "files", 2)],
                },
                Round {
                    after: 2,
                    asked: &[
                        Asked::Context("fr", "menu", "hi"),
                        Asked::Plain("fr_CA", "hi"),
                    ],
                },
            ],
            said: &[(2, "salut"), (2, "files"), (4, "hi"), (4, "salut")],
        },
        Reader {
            rounds: &[
                Round {
                    after: 1,
                    asked: &[Asked::Plain("de", "hi")],
                },
                Round {
                    after: 2,
                    asked: &[HI],
                },
            ],
            said: &[(2, "hallo"), (4, "bonjour")],
        },
    ],
    end: 4,
};

/// A text with one message twice, the second time on line 3.
const AGAIN: &[u8] = b"msgid \"a\"\nmsgstr \"x\"\nmsgid \"a\"\nmsgstr \"y\"\n";

/// What a load of `AGAIN` is refused for.
const AGAIN_FAULT: StoreFault = StoreFault::Refused(LoadFault {
    kind: LoadKind::Duplicate,
    line: 3,
});

/// An MO file of `hi` to `bonjour`.
const BONJOUR_FILE: &[u8] =
    b"\xde\x12\x04\x95\0\0\0\0\x01\0\0\0\x1c\0\0\0\x24\0\0\0\0\0\0\0\x2c\0\0\0\
    \x02\0\0\0\x2c\0\0\0\x07\0\0\0\x2f\0\0\0hi\0bonjour\0";

/// Seven commands, among them two refused loads and a publish of nothing. Each reader asks before the first publish,
/// between the two, and after them.
const COMMON: &Script = &Script {
    rows: &[
        (Step::Po("fr", SALUT), Outcome::Loaded(ONE)),
        (Step::Po("fr", AGAIN), Outcome::Refused(AGAIN_FAULT)),
        (Step::Misnamed, Outcome::Refused(StoreFault::BadName)),
        (Step::Publish, Outcome::Published(1)),
        (
            Step::Mo("fr", BONJOUR_FILE),
            Outcome::Loaded(Accepted::Mo(1)),
        ),
        (Step::Publish, Outcome::Published(2)),
        (Step::Publish, Outcome::Published(2)),
    ],
    readers: &[Reader {
        rounds: &[
            Round {
                after: 0,
                asked: &[HI, HI],
            },
            Round {
                after: 1,
                asked: &[HI, HI],
            },
            Round {
                after: 2,
                asked: &[HI, HI],
            },
        ],
        said: &[
            (0, "hi"),
            (0, "hi"),
            (1, "salut"),
            (1, "salut"),
            (2, "bonjour"),
            (2, "bonjour"),
        ],
    }],
    end: 2,
};

/// A kind of store, and the number of readers. A live store has no fewer than one.
const STORES: [(Store, usize); 7] = [
    (Store::Live, 1),
    (Store::Live, 3),
    (Store::Live, 16),
    (Store::Snapshots, 0),
    (Store::Snapshots, 1),
    (Store::Snapshots, 3),
    (Store::Snapshots, 16),
];

#[test]
fn each_request_is_one_step(rt: HostRuntime) -> Result<(), Fail> {
    for (store, readers) in STORES {
        let play = Play {
            script: COMMON,
            readers,
            first: 0,
        };
        assert!(rt;
            is_played(&rt, rt.alloc(), store, play)?,
            "{readers} readers"
        );
    }
    Ok(())
}

/// A single reader learns the newest notice before each of its entries: before the first publish, between the two, and
/// after them.
#[test]
fn the_newest_notice_is_learnt(rt: HostRuntime) -> Result<(), Fail> {
    for store in [Store::Live, Store::Snapshots] {
        let play = Play {
            script: COMMON,
            readers: 1,
            first: 3,
        };
        assert!(rt; is_played(&rt, rt.alloc(), store, play)?);
    }
    Ok(())
}

/// Each reader looks up in each way.
#[test]
fn a_script_is_answered_as_catserve_answers_it(rt: HostRuntime) -> Result<(), Fail> {
    for first in 0..4 {
        let play = Play {
            script: STORED,
            readers: 2,
            first,
        };
        let lived = is_played(&rt, rt.alloc(), Store::Live, play)?;
        let ran = is_played(&rt, rt.alloc(), Store::Snapshots, play)?;
        assert!(rt;
            lived && ran,
            "first way {first}: live {lived}, snapshots {ran}"
        );
    }
    Ok(())
}
