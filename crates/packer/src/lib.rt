//! The packer: chip texts, each with the name that it goes by, made into one bundle.
#![tactic(auto)]

mod check;
mod faults;
mod source;
mod write;

pub use faults::PackFault;
pub use source::Source;
pub use write::pack;

#[cfg(test)]
mod tests;
