//! The options of a compilation.

/// The options of a compilation.
#[derive(Clone, Copy, Debug, PartialEq, Eq)]
pub struct Options {
    /// Also run the checks of `msgfmt -c`.
    pub checked: bool,
    /// Also keep fuzzy entries (`msgfmt -f`).
    pub use_fuzzy: bool,
}
