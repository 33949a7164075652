//! Threads that are held until it is their turn.
use crate::made::{Row, Step};
use crate::scripts::Play;
use desks::{Gate, Place};
use std::alloc::{AllocError, Global};
use std::sync::atomic::{AtomicU64, Ordering};
use std::thread::yield_now;

/// How often a held thread looks whether it may go on.
const TURNS: u32 = 10_000_000;

/// What a reader waits for last of all, in place of a number of publishes.
pub(crate) const LAST: u64 = u64::MAX;

/// Holds each reader before a request until as many publishes are done as its script says, and the publisher before a
/// publish until no reader has a request left that comes before it. So each reply is of one known version.
#[derive(Drop)]
pub(crate) struct Held {
    pub(crate) play: Play,
    /// How many publishes are done.
    published: AtomicU64,
    /// How many publishes the present request of each reader comes after.
    readers: Vec<AtomicU64>,
    gave_up: AtomicU64,
}

fn wait_for(word: &AtomicU64, least: u64) -> bool {
    for _ in 0..TURNS {
        if word.load(Ordering::SeqCst) >= least {
            return true;
        }
        yield_now();
    }
    false
}

fn is_publish(row: Option<&Row>) -> bool {
    matches!(row, Some((Step::Publish, _)))
}

/// How many of the first `count` commands are publishes.
fn publishes(rows: &[Row], count: usize) -> u64 {
    let mut publishes: u64 = 0;
    for row in rows.iter().take(count) {
        if is_publish(Some(row)) {
            publishes = publishes.saturating_add(1);
        }
    }
    publishes
}

impl Held {
    pub(crate) fn new(alloc: Global, play: Play) -> Result<Held, AllocError> {
        let mut readers = Vec::new(alloc);
        for _ in 0..play.readers {
            readers.push(AtomicU64::new(0))?;
        }
        Ok(Held {
            play,
            published: AtomicU64::new(0),
            readers,
            gave_up: AtomicU64::new(0),
        })
    }

    /// Whether each thread was held until its turn, and none gave up waiting for another one.
    pub(crate) fn held_all(&self) -> bool {
        self.gave_up.load(Ordering::SeqCst) == 0
    }

    fn holds_publisher(&self, index: usize) -> bool {
        let rows = self.play.script.rows;
        let published = publishes(rows, index);
        self.published.store(published, Ordering::SeqCst);
        if !is_publish(rows.get(index)) {
            return true;
        }
        for reader in self.readers.as_slice() {
            if !wait_for(reader, published.saturating_add(1)) {
                return false;
            }
        }
        true
    }

    fn holds_reader(&self, place: usize, index: usize) -> bool {
        let Some(reader) = self.readers.get(place) else {
            return false;
        };
        let after = self.play.after(place, index);
        reader.store(after, Ordering::SeqCst);
        after == LAST || wait_for(&self.published, after)
    }
}

impl Gate for Held {
    fn pass(&self, place: Place, index: u64) {
        let held = match place {
            Place::Publishing => self.holds_publisher(index as usize),
            Place::Worker(number) => self.holds_reader(number as usize, index as usize),
        };
        if !held {
            self.gave_up.fetch_add(1, Ordering::SeqCst);
        }
    }
}
