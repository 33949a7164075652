//! Seals, by which a publish adds its batch to the store's book.
//!
//! A seal is the last change of a publish. It is applied after every load of the batch, doesn't allocate, and the
//! copies are swapped right after it, so a publish that runs out of memory leaves the book as it was.
ghost use Rattle.std.specs.Prelude.{◌≡◌, ◌+◌, ◌<◌, ◌^◌, ◌++◌, ◌∷◌, [], length, drop, IfSome};
ghost use Rattle.std.specs.Arc.{arc_value};
ghost use Rattle.live_loads.specs.Batches.{version_of};
ghost use Rattle.live_versions.specs.Changes.{loads_of};

use crate::seen::{Head, Seen, add_batch};
use crate::writer::StoreWriter;
use logbook::{Opening, Rule, Start};
use std::marker::{Brand, Model, PhantomData};
use std::sync::Arc;
use std::sync::atomic::AtomicU64;
use std::sync::atomic::Ordering::SeqCst;

/// A load, as a page of a bundle's book. No value of this type is ever made.
pub(crate) struct BundleLoad {
    nothing: (),
}

impl Model for BundleLoad {
    ghost use Rattle.std.specs.Prelude.{[]};
    ghost use Rattle.live_set.specs.Loads.{LoadValue};

    ghost Value = { LoadValue };

    ghost view = { λ _. record { domain = []; locale = []; map = [] } };
}

/// The rule of a bundle's book, which asks for nothing.
pub(crate) struct BundleRule;

impl Rule<BundleLoad, u64> for BundleRule {
    ghost use Rattle.std.specs.Prelude.{⊤, []};
    ghost use base.Fml.{ftrue};

    ghost holds = { λ cells log. ⊤ };

    ghost first = { [] };

    ghost hinted = { λ n log. ⊤ };

    ghost shows = { λ log. [] };

    ghost keeps = { λ names log. ftrue };

    ghost moves = { λ ask before after answer. ⊤ };
}

/// A batch named by a type parameter of a call.
trait Batch {
    ghost use Rattle.std.specs.Prelude.{List};
    ghost use Rattle.live_set.specs.Loads.{LoadValue};

    ghost loads: { List LoadValue };
}

impl Batch for Brand {
    ghost use Rattle.std.specs.Prelude.{[]};

    ghost loads = { [] };
}

/// Opens a bundle's book with the named batch in it.
struct Pages<N: Batch> {
    of: PhantomData<N>,
}

impl<N: Batch> Opening<u64, BundleLoad> for Pages<N> {
    ghost log = { λ n x. N.loads };
}

/// A batch for proofs alone. It has no bytes.
#[derive(Drop)]
pub(crate) struct Bundle {
    /// The first page of a book of the bundle's own.
    page: logbook::Seen<BundleLoad, u64, BundleRule>,
}

impl Model for Bundle {
    ghost use Rattle.std.specs.Prelude.{List};
    ghost use Rattle.live_set.specs.Loads.{LoadValue};

    ghost Value = { List LoadValue };

    ghost view = { λ bundle. bundle.page.log };
}

impl Bundle {
    fn again(&self) -> Bundle
        ensures { result ≡ self.now }
    {
        Bundle {
            page: self.page.again(),
        }
    }
}

/// The batch that the type parameter names.
fn name_batch<N: Batch>(writer: &StoreWriter) -> Bundle
    ensures { result ≡ N.loads }
{
    let _ = writer;
    let (page, _pens) = logbook::Seen::open_row::<u64, Pages<N>>(&0, Start::alone(), 0);
    Bundle { page }
}

/// The writer's pending loads, as a batch.
pub(crate) fn bundle_of(writer: &StoreWriter) -> Bundle
    ensures { result ≡ loads_of (drop writer.now.behind writer.now.log.items) }
{
    name_batch::<Brand>(writer)
}

/// The version word of the book, and the number of the one seal that may still be bound.
#[derive(Drop)]
pub(crate) struct Sealing {
    pub(crate) head: Head,
    pub(crate) live: AtomicU64,
}

/// A batch that a publish is about to show, on top of those that are shown. Contracts see it as the list with that
/// batch.
#[derive(Drop)]
pub(crate) struct Seal {
    sealing: Arc<Sealing>,
    base: Seen,
    loads: u64,
    bundle: Bundle,
    number: u64,
}

impl Model for Seal {
    ghost use Rattle.std.specs.Prelude.{◌≡◌, ◌<◌, ◌+◌, ◌^◌, ◌++◌, ◌∷◌, [], length};
    ghost use Rattle.std.specs.Arc.{arc_value};
    ghost use Rattle.live_loads.specs.Batches.{version_of};
    ghost use Rattle.live_loads.specs.Seen.{SeenValue};

    ghost Value = { SeenValue };

    ghost view = { λ s. record { book = s.base.book; batches = s.base.batches ++ s.bundle ∷ [] } };

    ghost invariant = { λ s. ((arc_value s.sealing).head.word.book ≡ s.base.book) × (0 < s.loads)
        × (s.loads ≡ length s.bundle) × (version_of s.base.batches + s.loads < 2 ^ 64) };
}

impl Seal {
    /// A seal for `loads` loads that follow the batches of `base`. It makes every earlier seal void.
    pub(crate) fn new(sealing: Arc<Sealing>, base: Seen, loads: u64, bundle: Bundle) -> Seal
        requires book { (arc_value sealing).head.word.book ≡ base.book }
        requires loads { (0 < loads) × (loads ≡ length bundle) }
        requires room { version_of base.batches + loads < 2 ^ 64 }
        ensures { result ≡ record { book = base.book; batches = base.batches ++ bundle ∷ [] } }
    {
        let number = sealing.live.fetch_add(1, SeqCst).wrapping_add(1);
        Seal {
            sealing,
            base,
            loads,
            bundle,
            number,
        }
    }

    /// Adds the batch to the book, for good. Returns `None` if a later seal was made, or if the book has moved on.
    fn bind(&self) -> Option<Seen>
        ensures { IfSome result (λ f. f ≡ self.now) }
    {
        if self.sealing.live.load(SeqCst) != self.number {
            return None;
        }
        add_batch(&self.sealing.head, &self.base, self.loads, &self.bundle)
    }

    /// The cover of a copy to which this seal was applied, with a token if the batch could be bound.
    pub(crate) fn cover(&self) -> Cover
        ensures { result ≡ self.now }
    {
        Cover {
            base: self.base.again(),
            bundle: Some(self.bundle.again()),
            token: self.bind(),
        }
    }
}

/// Which batches a copy shows, with a token once they are in the book. Every copy that a publish shows has its token,
/// though no contract says so.
#[derive(Drop)]
pub(crate) struct Cover {
    base: Seen,
    bundle: Option<Bundle>,
    token: Option<Seen>,
}

impl Model for Cover {
    ghost use Rattle.live_loads.specs.Seen.{SeenValue};
    ghost use Rattle.live_versions.specs.Book.{with_claim, IsTokenOf};

    ghost Value = { SeenValue };

    ghost view = { λ c. with_claim c.base c.bundle };

    ghost invariant = { λ c. IsTokenOf c.token (with_claim c.base c.bundle) };
}

impl Cover {
    /// The cover of a new copy.
    pub(crate) fn first(seen: &Seen) -> Cover
        ensures { result ≡ seen.now }
    {
        Cover {
            base: seen.again(),
            bundle: None,
            token: Some(seen.again()),
        }
    }

    /// The batches shown, as seen in the book, if they are there.
    pub(crate) fn token(&self) -> Option<Seen>
        ensures { IfSome result (λ f. f ≡ self.now) }
    {
        self.token.as_ref().map(|seen| seen.again())
    }
}
