//! The commands of the program: what they read, write and print.
#![tactic(auto)]

mod commands;
mod rom;
mod wording;

pub use commands::{Stop, run};
