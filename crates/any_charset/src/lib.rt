//! Compiles PO texts in any charset of `charsets`, and UTF-8 (GNU gettext manual, "msgfmt Invocation").
#![tactic(auto)]

mod compiler;
mod declared;
mod fault;
mod front;

pub use compiler::{compile_any, compile_recoded, is_for_charset, recoded};
pub use declared::{Declaration, named};
pub use fault::TextFault;
