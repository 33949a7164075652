//! The number of slots of a hash table.
ghost use Rattle.std.specs.Prelude.{◌≡◌, ◌↔◌, ◌<◌, ◌≤◌, ◌*◌, ℕ, IsTrue, MatchOption};
ghost use Rattle.mo_image.specs.MoFile.{most_file};
ghost use Rattle.mo_dependent.specs.Hashing.{IsPrime, IsHashSize, least_size};

use mo_image::MAX_LEN;

/// More slots than this don't fit in a file.
const MOST: usize = MAX_LEN / 4;

/// Whether a number above 1 is a prime.
fn is_prime(n: usize) -> bool
    requires { 1 < n }
    ensures { IsTrue result ↔ IsPrime n }
{
    'divisors: for d in 2..n {
        if n % d == 0 {
            return false;
        }
    }
    true
}

/// The least number of slots for this many messages.
fn least_size(messages: usize) -> usize
    requires { messages ≤ most_file }
    ensures { result ≡ least_size messages }
{
    if messages < 2 {
        return 3;
    }
    if messages < 4 {
        return 5;
    }
    messages * 4 / 3
}

/// The number of slots for this many messages, if they fit in a file.
pub(crate) fn hash_size(messages: usize) -> Option<usize>
    requires { messages ≤ most_file }
    ensures { MatchOption result ((size : ℕ) → IsHashSize messages size → most_file < 4 * size)
        (λ size. IsHashSize messages size × (4 * size ≤ most_file)) }
{
    'sizes: for size in least_size(messages)..MOST + 1 {
        if is_prime(size) {
            return Some(size);
        }
    }
    None
}
