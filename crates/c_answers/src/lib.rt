//! Catalogues as C holds them: the outcome of opening bytes, the look-ups in it, what is listed of it, and the numbers
//! that C and the library share.
#![tactic(auto)]

mod answers;
pub mod numbers;
mod opened;

pub use answers::{answer, context_in, gettext, hint, number, number_in, text};
pub use opened::{Opened, close, opened_size};
