//! Tests of `mo_file`, `mo_revisions` and `mo_dependent` through their public functions: worked files, files whose
//! strings overlap, look-ups in catalogues that were written and read back, and files of many sizes.
//!
//! The tests have a crate of their own, since a crate with tests is proved twice, with them and without.
#![tactic(auto)]

#[cfg(test)]
mod callers;
#[cfg(test)]
mod copies;
#[cfg(test)]
mod dependent;
#[cfg(test)]
mod files;
#[cfg(test)]
mod lookups;
#[cfg(test)]
mod overlaps;
#[cfg(test)]
mod revisions;
#[cfg(test)]
mod sizes;
#[cfg(test)]
mod sorted;
