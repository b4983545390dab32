//! Whether all of a bundle is joined, as text for a person.
#![tactic(auto)]

mod reports;

pub use reports::check;
