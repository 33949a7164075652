//! Messages with system-dependent strings.
ghost use Rattle.std.specs.Prelude.{◌≡◌, ◌↔◌, ◌*◌, ◌<◌, ◌+◌, ◌≤◌, length, slice_get, Some, IsTrue};
ghost use Rattle.std.specs.List.{AllByRecursion};
ghost use Rattle.mo_dependent.specs.Splits.{name_at, texts, HasSplits, IsSplit};

use c_macros::Split;

/// A string of a message, with its splits in rising order.
#[derive(Drop)]
pub struct SplitText {
    /// The string, as an MO file joins it, without the NUL at its end.
    pub bytes: Vec<u8>,
    pub splits: Vec<Split>,
}

/// A message of which a string depends on the system.
#[derive(Drop)]
pub struct Dependent {
    pub original: SplitText,
    pub translation: SplitText,
}

/// The name of the segment at a split: the flag, or what is between `<` and `>`.
pub fn name_at(text: &[u8], split: Split) -> &[u8]
    requires some { 0 < split.len }
    requires within { split.start + split.len ≤ length text.now }
    ensures { result.now ≡ name_at text.now split }
{
    if split.len == 1 {
        return &text[split.start..split.start + 1];
    }
    &text[split.start + 1..split.start + split.len - 1]
}

/// The i-th of the originals and the translations after them.
pub(crate) fn text_at(dependents: &[Dependent], i: usize) -> &SplitText
    requires { i < 2 * length dependents.now }
    ensures { slice_get (texts dependents.now) i ≡ Some result.now }
{
    let n = dependents.len();
    if i < n {
        &dependents[i].original
    } else {
        &dependents[i - n].translation
    }
}

/// The i-th message.
pub(crate) fn message_at(dependents: &[Dependent], i: usize) -> &Dependent
    requires { i < length dependents.now }
    ensures { slice_get dependents.now i ≡ Some result.now }
{
    &dependents[i]
}

/// The number of splits.
pub(crate) fn split_count(text: &SplitText) -> usize
    ensures { result ≡ length text.now.splits.items }
{
    text.splits.as_slice().len()
}

/// The i-th split.
pub(crate) fn split_at(text: &SplitText, i: usize) -> Split
    requires { i < length text.now.splits.items }
    ensures { slice_get text.now.splits.items i ≡ Some result }
{
    text.splits.as_slice()[i]
}

/// Whether a split lies in a text of this length after its first `from` bytes, and isn't empty.
fn lies(split: Split, from: usize, len: usize) -> bool
    ensures { IsTrue result ↔ (from ≤ split.start) × (0 < split.len) × (split.start + split.len ≤ len) }
{
    from <= split.start && split.start <= len && 0 < split.len && split.len <= len - split.start
}

/// Whether the splits of a text lie in it, one after another, and none is empty.
fn is_split(text: &SplitText) -> bool
    ensures { IsTrue result ↔ HasSplits text.now }
{
    let len = text.bytes.as_slice().len();
    let mut from = 0;
    'splits: for i in 0..split_count(text) {
        let split = split_at(text, i);
        if !lies(split, from, len) {
            return false;
        }
        from = split.start + split.len;
    }
    true
}

/// Whether the splits of each string lie in it, one after another, and none is empty: what
/// [`write_dependent`](crate::write_dependent) requires.
pub fn are_split(dependents: &[Dependent]) -> bool
    ensures { IsTrue result ↔ AllByRecursion IsSplit dependents.now }
{
    'messages: for i in 0..dependents.len() {
        let message = message_at(dependents, i);
        if !is_split(&message.original) || !is_split(&message.translation) {
            return false;
        }
    }
    true
}
