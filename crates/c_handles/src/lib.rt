//! What calls of a C program on its handles come to: one legal history of each live store, with its readers.
#![tactic(auto)]

mod agreement;
mod law;

pub use agreement::agree;
pub use law::handles_have_one_history;
