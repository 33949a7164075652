//! Worked lives. The values were written by hand, and not taken from a run.
use crate::made::{
    Asked, DUPLICATE, HI, ONE, Row, SALUT, Step, TWICE, came_out, commands_of, live, push_requests,
    way_of,
};
use desks::{Accepted, OpenGate};
use life::{Client, Outcome, Reply, Request};
use live_versions::{StoreFault, Version};
use mo_file::MoFault;
use std::alloc::{AllocError, Global};
use std::sync::Wait;
use std::test::Fail;
use std::thread::Threads;

/// An MO file of `hi` to `salut` and `yes` to `oui`.
const FILE: &[u8] = b"\xde\x12\x04\x95\0\0\0\0\x02\0\0\0\x1c\0\0\0\x2c\0\0\0\0\0\0\0\x3c\0\0\0\
    \x02\0\0\0\x3c\0\0\0\x03\0\0\0\x3f\0\0\0\x05\0\0\0\x43\0\0\0\x03\0\0\0\x49\0\0\0\
    hi\0yes\0salut\0oui\0";

/// That file without its last byte.
const CUT: &[u8] = b"\xde\x12\x04\x95\0\0\0\0\x02\0\0\0\x1c\0\0\0\x2c\0\0\0\0\0\0\0\x3c\0\0\0\
    \x02\0\0\0\x3c\0\0\0\x03\0\0\0\x3f\0\0\0\x05\0\0\0\x43\0\0\0\x03\0\0\0\x49\0\0\0\
    hi\0yes\0salut\0oui";

/// A life of a store.
struct Worked {
    /// What it shows.
    name: &'static str,
    /// How many loads the store accepts.
    most: u64,
    rows: &'static [Row],
    readers: usize,
    /// What each reader looks up.
    asked: &'static [Asked],
    /// The version that each reader has seen at the end.
    end: Version,
}

const THREE: &[Asked] = &[HI; 3];

const FIFTY: &[Asked] = &[HI; 50];

const ONE_LOAD: &[Row] = &[
    (Step::Po("fr", SALUT), Outcome::Loaded(ONE)),
    (Step::Publish, Outcome::Published(1)),
];

const LIVES: &[Worked] = &[
    Worked {
        name: "nothing to do",
        most: 9,
        rows: &[],
        readers: 2,
        asked: &[],
        end: 0,
    },
    Worked {
        name: "one load for one",
        most: 9,
        rows: ONE_LOAD,
        readers: 1,
        asked: THREE,
        end: 1,
    },
    Worked {
        name: "one load for two",
        most: 9,
        rows: ONE_LOAD,
        readers: 2,
        asked: THREE,
        end: 1,
    },
    Worked {
        name: "one load for sixteen",
        most: 9,
        rows: ONE_LOAD,
        readers: 16,
        asked: THREE,
        end: 1,
    },
    Worked {
        name: "loads of one publish are seen together",
        most: 9,
        rows: &[
            (Step::Po("fr", SALUT), Outcome::Loaded(ONE)),
            (Step::Po("de", SALUT), Outcome::Loaded(ONE)),
            (Step::Po("fr", SALUT), Outcome::Loaded(ONE)),
            (Step::Publish, Outcome::Published(3)),
        ],
        readers: 3,
        asked: FIFTY,
        end: 3,
    },
    Worked {
        name: "each refusal has its reason",
        most: 9,
        rows: &[
            (Step::Po("fr", SALUT), Outcome::Loaded(ONE)),
            (Step::Po("fr", TWICE), Outcome::Refused(DUPLICATE)),
            (Step::Misnamed, Outcome::Refused(StoreFault::BadName)),
            (Step::Publish, Outcome::Published(1)),
            (Step::Publish, Outcome::Published(1)),
        ],
        readers: 2,
        asked: THREE,
        end: 1,
    },
    Worked {
        name: "files have their outcomes",
        most: 9,
        rows: &[
            (Step::Mo("fr", FILE), Outcome::Loaded(Accepted::Mo(2))),
            (
                Step::Mo("fr", CUT),
                Outcome::Refused(StoreFault::RefusedMo(MoFault::Bounds)),
            ),
            (Step::Publish, Outcome::Published(1)),
        ],
        readers: 2,
        asked: THREE,
        end: 1,
    },
    Worked {
        name: "a store takes no more than its most",
        most: 1,
        rows: &[
            (Step::Po("fr", SALUT), Outcome::Loaded(ONE)),
            (
                Step::Po("fr", SALUT),
                Outcome::Refused(StoreFault::VersionsSpent),
            ),
            (Step::Publish, Outcome::Published(1)),
            (
                Step::Po("fr", TWICE),
                Outcome::Refused(StoreFault::VersionsSpent),
            ),
        ],
        readers: 1,
        asked: THREE,
        end: 1,
    },
];

/// The requests of each reader, who look up in one way after another, the first one in a group.
fn lists_of(
    alloc: Global,
    readers: usize,
    asked: &[Asked],
) -> Result<Vec<Vec<Request>>, AllocError> {
    let mut lists = Vec::new(alloc);
    for reader in 0..readers {
        let mut requests = Vec::new(alloc);
        push_requests(alloc, &mut requests, way_of(reader.wrapping_add(2)), asked)?;
        lists.push(requests)?;
    }
    Ok(lists)
}

/// Whether each text of a reply is `hi` at 0 or `salut` at `end`.
fn is_right(reply: &Reply, end: Version) -> bool {
    let wanted = if reply.version == 0 { "hi" } else { "salut" };
    if reply.version != 0 && reply.version != end {
        return false;
    }
    for text in reply.texts.as_slice() {
        if text.as_str() != wanted {
            return false;
        }
    }
    true
}

/// Whether a client has `count` texts and has seen `end`. All are right, and no reply is at 0 after one at `end`.
fn is_answered(client: &Client, count: usize, end: Version) -> bool {
    let mut texts: usize = 0;
    let mut last = 0;
    for reply in client.replies.as_slice() {
        if reply.version < last || !is_right(reply, end) {
            return false;
        }
        texts = texts.saturating_add(reply.texts.len());
        last = reply.version;
    }
    texts == count && client.reader.seen() == end
}

fn are_answered(clients: &[Client], worked: &Worked) -> bool {
    for client in clients {
        if !is_answered(client, worked.asked.len(), worked.end) {
            return false;
        }
    }
    clients.len() == worked.readers
}

/// Whether a life comes out as it was written.
fn is_lived<R: Threads + Wait + Sync>(
    rt: &R,
    alloc: Global,
    worked: &Worked,
) -> Result<bool, AllocError> {
    let commands = commands_of(alloc, worked.rows)?;
    let lists = lists_of(alloc, worked.readers, worked.asked)?;
    match live(
        rt,
        alloc,
        worked.most,
        commands.as_slice(),
        lists,
        &OpenGate,
    ) {
        Ok(life) => Ok(
            came_out(life.outcomes.as_slice(), worked.rows)
                && are_answered(life.clients.as_slice(), worked),
        ),
        Err(_) => Ok(false),
    }
}

#[test]
fn worked_lives(rt: HostRuntime) -> Result<(), Fail> {
    for worked in LIVES {
        let name = worked.name;
        assert!(rt; is_lived(&rt, rt.alloc(), worked)?, "{name}");
    }
    Ok(())
}
