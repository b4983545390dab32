//! Bytes that are names: letters and digits, reserved words, and the order of names; and lines.
//!
//! Whatever compares two names, in a bundle's contents, in a text or in a kit, asks `compare` or
//! `same` here.
#![tactic(auto)]

mod keyword;
mod line;
mod name;

pub use keyword::Keyword;
pub use line::line_len;
pub use name::{MAX_NAME, compare, is_name, same};
