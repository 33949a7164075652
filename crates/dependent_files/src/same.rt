//! Whether messages are the same.
ghost use Rattle.std.specs.Prelude.{◌≡◌, ◌↔◌, IsTrue};
ghost use Rattle.mo_segments.specs.MessageStrings.{strings_in, strings_of};

use mo_segments::Strings;

/// Whether two messages have the same strings.
fn is_same(message: &Strings, other: &Strings) -> bool
    ensures { IsTrue result ↔ (strings_in message.now ≡ strings_in other.now) }
{
    message.original.as_slice() == other.original.as_slice()
        && message.translation.as_slice() == other.translation.as_slice()
}

/// Whether there are the same messages in the same order.
pub(crate) fn are_same(messages: &[Strings], others: &[Strings]) -> bool
    ensures { IsTrue result ↔ (strings_of messages.now ≡ strings_of others.now) }
{
    if messages.len() != others.len() {
        return false;
    }
    'messages: for i in 0..messages.len() {
        if !is_same(&messages[i], &others[i]) {
            return false;
        }
    }
    true
}
