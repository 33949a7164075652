//! The book of a store's batches, and the beginnings of it that were seen.
//!
//! A book is a history that exists in proofs alone (`logbook`). At run time threads share only its word, which is the
//! version; a `Seen` is a beginning of the history.
ghost use Rattle.std.specs.Prelude.{◌≡◌, ◌+◌, ◌<◌, ◌^◌, ◌++◌, ◌∷◌, [], length, MatchBool, IfSome};
ghost use Rattle.live_loads.specs.Batches.{version_of, StartsWith, NoneEmpty};
ghost use Rattle.live_versions.specs.Book.{head_of};

use crate::Version;
use crate::seal::Bundle;
use logbook::{Gain, Offer, Plain, Play, Rule, Start, Word};
use std::marker::Model;

/// A batch, as a page of the book. No value of this type is ever made.
pub(crate) struct BookBatch {
    nothing: (),
}

impl Model for BookBatch {
    ghost use Rattle.std.specs.Prelude.{List, []};
    ghost use Rattle.live_set.specs.Loads.{LoadValue};

    ghost Value = { List LoadValue };

    ghost view = { λ _. [] };
}

/// The rule of a book: its word is the version of its batches.
pub(crate) struct BookRule;

impl Rule<BookBatch, u64> for BookRule {
    ghost use Rattle.std.specs.Prelude.{⊤, []};
    ghost use base.Fml.{ftrue};
    ghost use Rattle.live_versions.specs.Book.{KeepsBatches};

    ghost holds = { λ cells log. KeepsBatches cells log };

    ghost first = { [] };

    ghost hinted = { λ n log. ⊤ };

    ghost shows = { λ log. [] };

    ghost keeps = { λ names log. ftrue };

    ghost moves = { λ ask before after answer. ⊤ };
}

/// An exchange of the word that proves nothing more than its outcome.
struct Nothing;

impl Gain<BookBatch, u64> for Nothing {
    ghost use base.Fml.{ftrue};

    ghost after = { λ names about answer. ftrue };
}

/// An exchange of the word that adds the batch that it was offered.
struct Adding;

impl Play<BookBatch, u64> for Adding {
    ghost use Rattle.live_versions.specs.Book.{AddsBatch};

    ghost then = { λ s v found w. AddsBatch s.ask s v found w };
}

/// Offers the loads of a bundle as the batch.
struct Offered;

impl Plain<Bundle, BookBatch, u64> for Offered {
    ghost use Rattle.std.specs.Prelude.{None};

    ghost ask = { λ bundle. bundle };

    ghost state = { λ bundle. None };
}

/// A beginning of a store's batches that somebody has seen.
#[derive(Drop)]
pub(crate) struct Seen {
    version: Version,
    beginning: logbook::Seen<BookBatch, u64, BookRule>,
}

impl Model for Seen {
    ghost use Rattle.std.specs.Prelude.{◌≡◌};
    ghost use Rattle.live_loads.specs.Batches.{version_of, NoneEmpty};
    ghost use Rattle.live_loads.specs.Seen.{SeenValue};

    ghost Value = { SeenValue };

    ghost view = { λ s. record { book = s.beginning.book; batches = s.beginning.log } };

    ghost invariant = { λ s. (s.version ≡ version_of s.beginning.log) × NoneEmpty s.beginning.log };
}

/// The version word of the store's book.
#[derive(Drop)]
pub(crate) struct Head {
    pub(crate) word: Word<BookBatch, u64, BookRule>,
    pub ghost book: { word ≡ head_of word.book },
}

/// A new book, and its empty beginning.
pub(crate) fn open_book() -> (Head, Seen)
    ensures { (result.1.batches ≡ []) × (result.0.word.book ≡ result.1.book) }
{
    let (beginning, mut first, _second) = logbook::Seen::open(Start::alone(), 0, 0);
    let word = Word::tracked(0, &mut first);
    (
        Head { word },
        Seen {
            version: 0,
            beginning,
        },
    )
}

impl Seen {
    pub(crate) fn version(&self) -> Version
        ensures version { result ≡ version_of self.now.batches }
        ensures full { NoneEmpty self.now.batches }
    {
        self.version
    }

    pub(crate) fn again(&self) -> Seen
        ensures { result ≡ self.now }
    {
        Seen {
            version: self.version,
            beginning: self.beginning.again(),
        }
    }

    /// Whether `self` is a beginning of `other`; if not, `other` is a shorter beginning of `self`.
    pub(crate) fn begins(&self, other: &Seen) -> bool
        requires { other.now.book ≡ self.now.book }
        ensures { MatchBool result (StartsWith other.now.batches self.now.batches)
            (StartsWith self.now.batches other.now.batches
            × (version_of other.now.batches < version_of self.now.batches)) }
    {
        let mut both = self.beginning.again();
        both.learn(&other.beginning);
        self.version <= other.version
    }
}

/// Adds a batch of `loads` loads after all that was seen. Returns `None` if the book has moved on.
pub(crate) fn add_batch(head: &Head, seen: &Seen, loads: u64, bundle: &Bundle) -> Option<Seen>
    requires book { head.now.word.book ≡ seen.now.book }
    requires loads { (0 < loads) × (loads ≡ length bundle.now) }
    requires room { version_of seen.now.batches + loads < 2 ^ 64 }
    ensures { IfSome result (λ f. f ≡ record { book = seen.now.book; batches = seen.now.batches ++ bundle.now ∷ [] }) }
{
    let mut beginning = seen.beginning.again();
    let mut offer: Offer<BookBatch, u64, BookRule, Nothing> = beginning.plain::<
        Nothing,
        Bundle,
        Offered,
    >(bundle);
    let mut pen = beginning.no_pen();
    let old = seen.version;
    let new = old + loads;
    let found = head
        .word
        .compare_exchange::<Adding, Nothing>(old, new, &mut beginning, &mut offer, &mut pen);
    if found != old {
        return None;
    }
    Some(Seen {
        version: new,
        beginning,
    })
}
