//! What a program with a store and one of its readers at hand knows of both.
ghost use Rattle.std.specs.Prelude.{◌≡◌};
ghost use Rattle.c_handles.specs.HandleAgreement.{AreOfOneStore, Agrees};

use c_sets::{HeldSet, Origin};
use c_stores::HeldStore;

/// What a reader of this store has seen is a beginning of what is published in the store. It changes nothing, and no
/// program needs to call it: it is there for its contract. Nobody publishes meanwhile, since a publish needs the store.
pub fn agree(store: &mut HeldStore, reader: &HeldSet)
    requires { AreOfOneStore store.old reader.now }
    ensures same { store.new ≡ store.old }
    ensures agrees { Agrees store.new reader.now }
{
    let Some(publisher) = &mut store.publisher else {
        return;
    };
    match &reader.origin {
        Origin::Lent(reader) => publisher.bounds(reader),
        Origin::Left(away, _) => publisher.bounds_away(away),
        _ => {}
    }
}
