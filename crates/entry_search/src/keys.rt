//! Compares keys piece by piece, without allocating.
ghost use Rattle.std.specs.Prelude.{◌≡◌, ◌≤◌, ◌∷◌, length, Some, option_map};
ghost use Rattle.std.specs.Ordering.{nat_cmp};
ghost use Rattle.std.specs.Cmp.Lexicographic.{slice_cmp};
ghost use Rattle.std.specs.Str.{bytes_eq};
ghost use Rattle.mo_image.specs.Entry.{key_bytes};

use std::cmp::Ordering;

/// Compares a key, or any other text, with the key of a msgid in a context.
pub(crate) fn cmp_in_context(text: &[u8], context: &[u8], id: &[u8]) -> Ordering
    ensures { result ≡ slice_cmp nat_cmp text.now (key_bytes (Some context.now) id.now) }
{
    let n = context.len();
    if text.len() <= n {
        return text.cmp(context).then(Ordering::Less);
    }
    text[..n]
        .cmp(context)
        .then(text[n].cmp(&4))
        .then(text[n + 1..].cmp(id))
}

/// Whether a text is the separator of a context and a msgid, and then this msgid.
#[inline(always)]
fn is_behind_separator(text: &[u8], id: &[u8]) -> bool
    ensures { result ≡ bytes_eq text.now (4 ∷ id.now) }
{
    match text.split_first() {
        Some((byte, rest)) => *byte == 4 && rest == id,
        None => false,
    }
}

/// Whether a text is the key of a msgid in a context.
#[inline(always)]
pub(crate) fn is_in_context(text: &[u8], context: &[u8], id: &[u8]) -> bool
    ensures { result ≡ bytes_eq text.now (key_bytes (Some context.now) id.now) }
{
    match text.split_at_checked(context.len()) {
        Some((front, rest)) => front == context && is_behind_separator(rest, id),
        None => false,
    }
}

/// Compares two keys with contexts, where the second context is at least as long as the first.
fn cmp_longer(context: &[u8], id: &[u8], other_context: &[u8], other_id: &[u8]) -> Ordering
    requires { length context.now ≤ length other_context.now }
    ensures { result ≡ slice_cmp nat_cmp (key_bytes (Some context.now) id.now)
        (key_bytes (Some other_context.now) other_id.now) }
{
    let (front, rest) = other_context.split_at(context.len());
    let order = context.cmp(front);
    match rest.split_first() {
        Some((byte, rest)) => order
            .then(4u8.cmp(byte))
            .then(cmp_in_context(id, rest, other_id)),
        None => order.then(id.cmp(other_id)),
    }
}

/// Compares two keys with contexts.
fn cmp_contexts(context: &[u8], id: &[u8], other_context: &[u8], other_id: &[u8]) -> Ordering
    ensures { result ≡ slice_cmp nat_cmp (key_bytes (Some context.now) id.now)
        (key_bytes (Some other_context.now) other_id.now) }
{
    if context.len() <= other_context.len() {
        cmp_longer(context, id, other_context, other_id)
    } else {
        cmp_longer(other_context, other_id, context, id).reverse()
    }
}

/// Compares two keys by their bytes, each the key of a msgid in a context or in none.
pub fn cmp_keys(
    context: Option<&str>,
    id: &str,
    other_context: Option<&str>,
    other_id: &str,
) -> Ordering
    ensures { result ≡ slice_cmp nat_cmp (key_bytes (option_map (λ s. s.now) context.entry) id.now)
        (key_bytes (option_map (λ s. s.now) other_context.entry) other_id.now) }
{
    let id = id.as_bytes();
    let other = other_id.as_bytes();
    match (context, other_context) {
        (None, None) => id.cmp(other),
        (None, Some(context)) => cmp_in_context(id, context.as_bytes(), other),
        (Some(context), None) => cmp_in_context(other, context.as_bytes(), id).reverse(),
        (Some(context), Some(other_context)) => {
            cmp_contexts(context.as_bytes(), id, other_context.as_bytes(), other)
        }
    }
}
