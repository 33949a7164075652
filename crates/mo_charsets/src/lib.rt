//! Reads MO files in any charset of `charsets` (GNU gettext manual, "MO Files" and "Header Entry"). `mo_file` and
//! `mo_revisions` read UTF-8, and refuse others; here the strings of such a file are decoded.
#![tactic(auto)]

mod fault;
mod reader;
mod recoding;

pub use fault::RecodedFault;
pub use reader::{read_any_charset, read_recoded};
