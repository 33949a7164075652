//! The characters of two bytes. Written by tools/make_charsets.
pub(crate) mod euc_kr_a1;
pub(crate) mod euc_kr_ea;
