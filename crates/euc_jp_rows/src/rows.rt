//! The characters of two bytes. Written by tools/make_charsets.
pub(crate) mod euc_jp_8e;
pub(crate) mod euc_jp_8f_a2;
pub(crate) mod euc_jp_e9;
