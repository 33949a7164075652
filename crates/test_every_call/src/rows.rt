//! The calls of the groups `publish`, `ask` and `store_rows`, as tables of steps.
use crate::calls::{Calls, Step};
use crate::files::SWAPPED;
use crate::store::{Way, Words};
use crate::texts::{HALLO, SALUT, TWICE};

/// An MO file of `hi` to `hej` and `yes` to `ja`.
const HEJ: &[u8] = b"\xde\x12\x04\x95\0\0\0\0\x02\0\0\0\x1c\0\0\0\x2c\0\0\0\0\0\0\0\x3c\0\0\0\
    \x02\0\0\0\x3c\0\0\0\x03\0\0\0\x3f\0\0\0\x03\0\0\0\x43\0\0\0\x02\0\0\0\x47\0\0\0\
    hi\0yes\0hej\0ja\0";

/// Two loads and a publish, which is called again if it ran out of memory, and a text that is refused.
pub const PUBLISH: Calls = Calls {
    words: Words::Whole,
    steps: [
        &[
            Step::Load("app", "fr", SALUT),
            Step::Load("app", "de", HALLO),
            Step::Publish,
            Step::Enter,
            Step::Publish,
        ],
        &[
            Step::Learn,
            Step::Enter,
            Step::Load("app", "fr", TWICE),
            Step::Publish,
            Step::Enter,
        ],
    ],
};

/// Queries, notices of two versions, and MO files. One file is cut short, and one is for a domain that isn't a name.
pub const ASK: Calls = Calls {
    words: Words::Whole,
    steps: [
        &[Step::Enter, Step::Load("app", "fr", SALUT), Step::Publish],
        &[
            Step::Learn,
            Step::Enter,
            Step::Enter,
            Step::Ask(Way::Ask),
            Step::Seen,
            Step::Ask(Way::AskInto),
            Step::Seen,
            Step::Settle,
            Step::Load("app", "fr", SALUT),
            Step::Publish,
            Step::LearnNow,
            Step::Settle,
            Step::LoadMo("app", &SWAPPED, 0),
            Step::LoadMo("app", &SWAPPED, 1),
            Step::LoadMo("a b", &SWAPPED, 0),
            Step::Publish,
            Step::Enter,
        ],
    ],
};

/// Loads, publishes, entries and a query; a text that is refused, one more load, and an MO file, whole and without its
/// last byte.
pub const STORE_ROWS: Calls = Calls {
    words: Words::Short,
    steps: [
        &[
            Step::Load("app", "fr", SALUT),
            Step::Load("app", "de", HALLO),
            Step::Publish,
            Step::Enter,
            Step::Publish,
        ],
        &[
            Step::Learn,
            Step::Enter,
            Step::Ask(Way::Short),
            Step::Load("app", "fr", TWICE),
            Step::Publish,
            Step::Load("app", "sv", SALUT),
            Step::Publish,
            Step::Enter,
            Step::LoadMo("app", HEJ, 0),
            Step::LoadMo("app", HEJ, 1),
            Step::Publish,
            Step::Enter,
        ],
    ],
};
