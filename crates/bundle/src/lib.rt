//! The bundle: many chip texts in one run of bytes, under a table of contents.
#![tactic(auto)]

mod breach;
mod check;
mod opened;
mod row;

pub use breach::Breach;
pub use check::{MAX_BYTES, MAX_ENTRIES};
pub use opened::{Bundle, Entries, Entry};
pub use row::ROW;
