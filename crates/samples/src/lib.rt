//! Samples for the programs that test the bench on many small bundles: a line of input has the texts of
//! a bundle, each as `x` and its bytes in hex, and they go by the names A, B, C and so on.
#![tactic(auto)]

mod lines;
mod sources;
mod stop;
mod words;

pub use lines::{bundle_of, print_fault};
pub use sources::sources_of;
pub use stop::Stop;
pub use words::decode;

#[cfg(test)]
mod tests;
