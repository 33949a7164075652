//! The MO files of PO texts whose C formats name macros of `<inttypes.h>`, such as `%<PRIu64>` (GNU gettext manual,
//! "c-format" and "MO Files"), and the catalogues of such texts on x86-64 Linux.
#![tactic(auto)]

mod any;
mod compiler;
mod fault;
mod file;
mod flag;
mod here;
mod same;

pub use any::compile_dependent_any;
pub use compiler::{DependentFile, compile_file};
pub use fault::FileFault;
pub use file::{MessagesFile, file_of_messages};
pub use flag::has_digits_flag;
