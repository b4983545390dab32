//! Kits of built-in parts, behind one trait: the atoms, a ROM over lent words, and two kits as one.
#![tactic(auto)]

mod atoms;
mod header;
mod kits;
mod laws;
mod pair;
mod rom;
mod shape;

pub use atoms::Atoms;
pub use header::{Header, Listed};
pub use kits::{Kit, MAX_KINDS};
pub use laws::{laws_are_met, pairs_join};
pub use pair::Pair;
pub use rom::Rom;
pub use shape::{Pin, Side, Size};

#[cfg(test)]
mod tests;
