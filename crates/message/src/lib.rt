//! What a message of a catalogue is: its texts, the key that it is looked up by, what its texts may contain, and which
//! charsets a header may name (GNU gettext manual, "MO Files" and "Header Entry").
//!
//! The crate consists of definitions (`specs/`) and worked examples of them (`proofs/`). The crates that read PO texts,
//! check them and write MO files describe messages by these definitions, so none of them depends on another for what a
//! message is.
#![tactic(auto)]
