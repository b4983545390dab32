//! Answers as text for a person.
#![tactic(auto)]

mod chips;
mod faults;
mod listing;
mod lists;
mod outlines;
mod page;
mod place;
mod refusals;

pub use lists::list;
pub use outlines::outline;
pub use place::{Spot, locate};
pub use refusals::{Refusal, refused};
