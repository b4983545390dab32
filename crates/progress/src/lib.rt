//! How far a chip text is read, and what the next token makes of it.
//!
//! The token language of chips has no recursion, so reading is a walk from state to state, one step a
//! token. A state keeps what of the text the records still want: where names stand, and numbers.
#![tactic(auto)]

mod moves;
mod state;

pub use state::{End, Near, State};
