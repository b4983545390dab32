//! The catalogue: what the texts of a bundle say, as records in the order of the texts, in memory
//! that the caller lends.
#![tactic(auto)]

mod lent;
mod records;
mod room;
mod table;

pub use kit::Side;
pub use lent::Table;
pub use records::{
    ConnectionRecord, FarEnd, Joint, PartRecord, Piece, PinRecord, Span, Subscript, Target,
};
pub use room::{CONNECTIONS, Catalogue, Counts, PARTS, PINS, Room};
pub use table::{Record, fill_blank};
