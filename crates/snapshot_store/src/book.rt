//! The batches of a store as its book keeps them, and beginnings of them that were seen.
//!
//! A book is a history that exists in proofs alone (`logbook`). Its words are two numbers at run time: how many turns
//! to show a version were given, and how many batches are shown. A `Seen` is a beginning of the history. A `Turn`
//! also exists in proofs alone.
ghost use Rattle.std.specs.Prelude.{◌≡◌, ◌≢◌, ◌+◌, ◌*◌, ◌/◌, ◌%◌, ◌<◌, ◌≤◌, ◌^◌, ◌++◌, ◌∷◌, []};
ghost use Rattle.std.specs.Prelude.{length, MatchBool, IfSome, IfOk, IfErr};
ghost use Rattle.live_loads.specs.Batches.{StartsWith};
ghost use Rattle.logbook.specs.Pages.{may_make};
ghost use Rattle.snapshot_store.specs.SlotBook.{head_of, shown_word, shown_of};

use live_set::Load;
use logbook::{Gain, Offer, Pen, Plain, Play, Rule, Start, Word};
use std::marker::Model;

/// An entry of a book. No value of this type is ever made.
pub(crate) struct Event {
    nothing: (),
}

impl Model for Event {
    ghost use Rattle.std.specs.Prelude.{ℕ, List, []};
    ghost use Rattle.live_set.specs.Loads.{LoadValue};

    ghost Value = { ℕ × List LoadValue };

    ghost view = { λ _. (0, []) };
}

/// The rule of a book: its words are how many turns were given, and how many batches are shown.
pub(crate) struct BookRule;

impl Rule<Event, u64> for BookRule {
    ghost use Rattle.std.specs.Prelude.{⊤, []};
    ghost use base.Fml.{ftrue};
    ghost use Rattle.snapshot_store.specs.SlotBook.{IsKept};

    ghost holds = { λ cells log. IsKept cells log };

    ghost first = { [] };

    ghost hinted = { λ n log. ⊤ };

    ghost shows = { λ log. [] };

    ghost keeps = { λ names log. ftrue };

    ghost moves = { λ ask before after answer. ⊤ };
}

/// A step on a word that proves nothing more than its outcome.
struct Nothing;

impl Gain<Event, u64> for Nothing {
    ghost use base.Fml.{ftrue};

    ghost after = { λ names about answer. ftrue };
}

/// A step that gives the first turn.
struct Beginning;

impl Play<Event, u64> for Beginning {
    ghost use Rattle.snapshot_store.specs.SlotBook.{Begins};

    ghost then = { λ s v found w. Begins s v found w };
}

/// A step that adds the batch that was offered, and gives a turn.
struct Adding;

impl Play<Event, u64> for Adding {
    ghost use Rattle.snapshot_store.specs.SlotBook.{Adds};

    ghost then = { λ s v found w. Adds s.ask.1 s v found w };
}

/// A step that shows the version that was offered.
struct Showing;

impl Play<Event, u64> for Showing {
    ghost use Rattle.snapshot_store.specs.SlotBook.{Shows};

    ghost then = { λ s v found w. Shows s.ask.0 s v found w };
}

/// A step that finds out what is shown.
struct Looking;

impl Play<Event, u64> for Looking {
    ghost use Rattle.snapshot_store.specs.SlotBook.{Looks};

    ghost then = { λ s v found w. Looks s v found w };
}

/// A step that changes nothing.
struct Waiting;

impl Play<Event, u64> for Waiting {
    ghost use Rattle.snapshot_store.specs.SlotBook.{Waits};

    ghost then = { λ s v found w. Waits s v found w };
}

/// What a step offers: the loads of a batch, or the number of a version.
struct Offered;

impl Plain<Vec<Load>, Event, u64> for Offered {
    ghost use Rattle.std.specs.Prelude.{None};

    ghost ask = { λ batch. (0, batch.items) };

    ghost state = { λ batch. None };
}

impl Plain<u64, Event, u64> for Offered {
    ghost use Rattle.std.specs.Prelude.{None, []};

    ghost ask = { λ n. (n, []) };

    ghost state = { λ n. None };
}

/// A beginning of a store's batches that somebody has seen.
#[derive(Drop)]
pub(crate) struct Seen {
    /// The number of batches.
    batch_count: u64,
    beginning: logbook::Seen<Event, u64, BookRule>,
}

impl Model for Seen {
    ghost use Rattle.std.specs.Prelude.{◌≡◌, length};
    ghost use Rattle.live_loads.specs.Seen.{SeenValue};
    ghost use Rattle.snapshot_store.specs.SlotBook.{batches_of};

    ghost Value = { SeenValue };

    ghost view = { λ s. record { book = s.beginning.book; batches = batches_of s.beginning.log } };

    ghost invariant = { λ s. s.batch_count ≡ length (batches_of s.beginning.log) };
}

/// The word of a book by which batches are made.
#[derive(Drop)]
pub(crate) struct Head {
    pub(crate) word: Word<Event, u64, BookRule>,
    pub ghost book: { word ≡ head_of word.book },
}

/// The word of a book that says what is shown: the number of batches times 64, and the slot of their version.
#[derive(Drop)]
pub(crate) struct Shown {
    pub(crate) word: Word<Event, u64, BookRule>,
    pub ghost book: { word ≡ shown_word word.book },
}

/// How many batches were shown at one moment. It has no bytes.
#[derive(Drop)]
pub(crate) struct Sight {
    pub(crate) beginning: logbook::Seen<Event, u64, BookRule>,
}

/// That a version was shown. It has no bytes. Contracts see it as the batches of the version.
#[derive(Drop)]
pub(crate) struct Known {
    version: logbook::Seen<Event, u64, BookRule>,
    shown: logbook::Seen<Event, u64, BookRule>,
}

impl Model for Known {
    ghost use Rattle.std.specs.Prelude.{◌≡◌, ◌≤◌, length};
    ghost use Rattle.live_loads.specs.Seen.{SeenValue};
    ghost use Rattle.snapshot_store.specs.SlotBook.{batches_of, shown_of};

    ghost Value = { SeenValue };

    ghost view = { λ k. record { book = k.version.book; batches = batches_of k.version.log } };

    ghost invariant = { λ k. (k.shown.book ≡ k.version.book)
        × (length (batches_of k.version.log) ≤ shown_of k.shown.log) };
}

/// The right to show one version more. While it isn't used, no more batches are shown than it says. It has no bytes.
/// Contracts see it as its book and that number.
#[derive(Drop)]
pub(crate) struct Turn {
    pen: Pen,
}

impl Model for Turn {
    ghost use Rattle.std.specs.Prelude.{◌≡◌, ◌≤◌, ◌-◌};
    ghost use Rattle.logbook.specs.Pages.{may_write};
    ghost use Rattle.snapshot_store.specs.SlotBook.{TurnValue};

    ghost Value = { TurnValue };

    ghost view = { λ t. record { book = t.pen.book; shown = t.pen.nib.key - 2 } };

    ghost invariant = { λ t. (t.pen.nib.right ≡ may_write) × (2 ≤ t.pen.nib.key) };
}

/// The turn that the pen is for.
fn turn_of(mut pen: Pen) -> Turn
    requires { (pen.nib.right ≡ may_make) × (2 ≤ pen.nib.key) }
    ensures { (result.book ≡ pen.book) × (result.shown + 2 ≡ pen.nib.key) }
{
    let word: Word<Event, u64, BookRule> = Word::tracked(0, &mut pen);
    drop(word);
    Turn { pen }
}

/// A new book, and its empty beginning.
pub(crate) fn open_book() -> (Head, Shown, Seen)
    ensures batches { result.2.batches ≡ [] }
    ensures books { (result.0.word.book ≡ result.2.book) × (result.1.word.book ≡ result.2.book) }
{
    let (beginning, mut first, mut second) = logbook::Seen::open(Start::alone(), 0, 0);
    let word = Word::tracked(0, &mut first);
    let shown = Word::tracked(0, &mut second);
    (
        Head { word },
        Shown { word: shown },
        Seen {
            batch_count: 0,
            beginning,
        },
    )
}

impl Seen {
    /// The number of batches.
    pub(crate) fn batch_count(&self) -> u64
        ensures { result ≡ length self.now.batches }
    {
        self.batch_count
    }

    pub(crate) fn again(&self) -> Seen
        ensures { result ≡ self.now }
    {
        Seen {
            batch_count: self.batch_count,
            beginning: self.beginning.again(),
        }
    }

    /// Whether `self` is a beginning of `other`; if not, `other` is a shorter beginning of `self`.
    pub(crate) fn begins(&self, other: &Seen) -> bool
        requires { other.now.book ≡ self.now.book }
        ensures { MatchBool result (StartsWith other.now.batches self.now.batches)
            (StartsWith self.now.batches other.now.batches
            × (length other.now.batches < length self.now.batches)) }
    {
        let mut both = self.beginning.again();
        both.learn(&other.beginning);
        self.batch_count <= other.batch_count
    }

    /// Whether both are one beginning.
    #[tactic(auto, using(crate::proofs::Ordering::as_long, crate::proofs::Ordering::other_length))]
    pub(crate) fn is_same(&self, other: &Seen) -> bool
        requires { other.now.book ≡ self.now.book }
        ensures { MatchBool result (other.now ≡ self.now) (other.now ≢ self.now) }
    {
        self.begins(other) && self.batch_count == other.batch_count
    }
}

/// The turn to show the first batch. Returns `None` if it was given before.
pub(crate) fn first_turn(head: &Head, seen: &Seen) -> Option<Turn>
    requires { head.now.word.book ≡ seen.now.book }
    ensures { IfSome result (λ turn. (turn.book ≡ seen.now.book) × (turn.shown ≡ 0)) }
{
    let mut beginning = seen.beginning.again();
    let none = 0u64;
    let mut offer: Offer<Event, u64, BookRule, Nothing> = beginning.plain::<Nothing, u64, Offered>(
        &none,
    );
    let mut pen = beginning.no_pen();
    let found = head
        .word
        .compare_exchange::<Beginning, Nothing>(0, 1, &mut beginning, &mut offer, &mut pen);
    if found != 0 {
        return None;
    }
    Some(turn_of(pen))
}

/// Adds a batch after all that was seen, and gives the turn to show what comes after it. Returns `None` if the book has
/// moved on.
pub(crate) fn add_batch(head: &Head, seen: &Seen, batch: &Vec<Load>) -> Option<(Seen, Turn)>
    requires book { head.now.word.book ≡ seen.now.book }
    requires room { length seen.now.batches + 1 < 2 ^ 58 }
    ensures seen { IfSome result (λ r. r.0
        ≡ record { book = seen.now.book; batches = seen.now.batches ++ batch.now.items ∷ [] }) }
    ensures turn { IfSome result (λ r. (r.1.book ≡ seen.now.book) × (r.1.shown ≡ length seen.now.batches + 1)) }
{
    let mut beginning = seen.beginning.again();
    let mut offer: Offer<Event, u64, BookRule, Nothing> = beginning.plain::<
        Nothing,
        Vec<Load>,
        Offered,
    >(batch);
    let mut pen = beginning.no_pen();
    let old = seen.batch_count + 1;
    let found = head
        .word
        .compare_exchange::<Adding, Nothing>(old, old + 1, &mut beginning, &mut offer, &mut pen);
    if found != old {
        return None;
    }
    let grown = Seen {
        batch_count: old,
        beginning,
    };
    Some((grown, turn_of(pen)))
}

impl Known {
    /// The version of no batches, which is shown from the beginning on.
    pub(crate) fn first(seen: &Seen) -> Known
        requires { seen.now.batches ≡ [] }
        ensures { result ≡ seen.now }
    {
        Known {
            version: seen.beginning.again(),
            shown: seen.beginning.again(),
        }
    }

    /// The version that was found to be shown.
    pub(crate) fn found(version: &Seen, sight: Sight) -> Known
        requires book { sight.beginning.book ≡ version.now.book }
        requires shown { length version.now.batches ≤ shown_of sight.beginning.log }
        ensures { result ≡ version.now }
    {
        Known {
            version: version.beginning.again(),
            shown: sight.beginning,
        }
    }

    pub(crate) fn again(&self) -> Known
        ensures { result ≡ self.now }
    {
        Known {
            version: self.version.again(),
            shown: self.shown.again(),
        }
    }
}

/// Shows a version, which is in slot `at`, in place of the one that `old` names, which is in another slot. It uses the
/// turn. Gives it back if the word isn't `old`.
pub(crate) fn show(
    shown: &Shown,
    version: &Seen,
    old: u64,
    at: u64,
    turn: Turn,
) -> Result<Known, Turn>
    requires book { shown.now.word.book ≡ version.now.book }
    requires slot { at < 64 }
    requires other { at ≢ old % 64 }
    requires turn { (turn.book ≡ version.now.book) × (turn.shown ≡ old / 64) }
    requires next { length version.now.batches ≡ old / 64 + 1 }
    requires room { length version.now.batches < 2 ^ 58 }
    ensures ok { IfOk result (λ known. known ≡ version.now) }
    ensures err { IfErr result (λ back. back ≡ turn) }
{
    let mut beginning = version.beginning.again();
    let batch_count = version.batch_count;
    let mut offer: Offer<Event, u64, BookRule, Nothing> = beginning.plain::<Nothing, u64, Offered>(
        &batch_count,
    );
    let Turn { mut pen } = turn;
    let new = batch_count * 64 + at;
    let found = shown
        .word
        .compare_exchange::<Showing, Nothing>(old, new, &mut beginning, &mut offer, &mut pen);
    if found != old {
        return Err(Turn { pen });
    }
    Ok(Known {
        version: version.beginning.again(),
        shown: beginning,
    })
}

/// The word of what is shown, which is no older than what is known to have been, and the sight of it.
pub(crate) fn shown_after(shown: &Shown, known: &Known) -> (u64, Sight)
    requires { shown.now.word.book ≡ known.now.book }
    ensures later { length known.now.batches ≤ result.0 / 64 }
    ensures book { result.1.beginning.book ≡ known.now.book }
    ensures sight { shown_of result.1.beginning.log ≡ result.0 / 64 }
{
    let mut beginning = known.shown.again();
    let none = 0u64;
    let mut offer: Offer<Event, u64, BookRule, Nothing> = beginning.plain::<Nothing, u64, Offered>(
        &none,
    );
    let word = shown
        .word
        .load::<Looking, Nothing>(&mut beginning, &mut offer);
    (word, Sight { beginning })
}

/// A version of at least as many batches as what is known begins with it. It does nothing at run time.
pub(crate) fn tie(version: &Seen, known: &Known)
    requires book { known.now.book ≡ version.now.book }
    requires longer { length known.now.batches ≤ length version.now.batches }
    ensures { StartsWith version.now.batches known.now.batches }
{
    let mut both = version.beginning.again();
    both.learn(&known.version);
}

/// What was shown is a beginning of the version up to which the turn says that batches are shown. It changes nothing.
pub(crate) fn wait(head: &Head, version: &Seen, turn: &mut Turn, known: &Known)
    requires book { (head.now.word.book ≡ version.now.book) × (turn.old.book ≡ version.now.book) }
    requires known { known.now.book ≡ version.now.book }
    requires all { length version.now.batches ≡ turn.old.shown }
    ensures same { turn.new ≡ turn.old }
    ensures begins { StartsWith version.now.batches known.now.batches }
{
    let mut both = version.beginning.again();
    both.learn(&known.version);
    both.learn(&known.shown);
    let none = 0u64;
    let mut offer: Offer<Event, u64, BookRule, Nothing> = both.plain::<Nothing, u64, Offered>(
        &none,
    );
    let _ = head
        .word
        .compare_exchange::<Waiting, Nothing>(0, 0, &mut both, &mut offer, &mut turn.pen);
}
