//! Sets of catalogues as C holds them, and the readers of a live store, which lend one: how a set is made from another,
//! and the look-ups in it, by a list of languages or at the places that such a list names.
#![tactic(auto)]

mod places;
mod sets;

pub use places::{set_answer_at, set_hint, set_places};
pub use sets::{
    HeldSet, Origin, close_set, is_name_of, new_set, set_answer, set_number, set_size, with_one,
    without,
};
