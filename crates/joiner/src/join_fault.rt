//! What is wrong with texts that are to be joined.
ghost use Rattle.std.specs.Prelude.{◌≡◌};
ghost use Rattle.joiner.specs.Faults.{fault_of};

use fault::{Cause, Fault, Place};

/// What is wrong, and where.
#[derive(Clone, Copy, Debug, PartialEq, Eq)]
pub enum JoinFault {
    /// Neither the bundle nor the kit has a part of this name.
    UnknownPart(Place),
    /// The part has no such pin.
    NoSuchPartPin(Place),
    /// A subscript or a far end is not allowed.
    BadEnd(Place),
    /// The two ends differ in width.
    WidthsDiffer(Place),
    /// What the connection feeds is fed already.
    FedTwice(Place),
    /// A part's input, a chip's output or an internal pin is never fed.
    LeftOpen(Place),
}

impl From<JoinFault> for Fault {
    ghost from_gives = { λ f r. r ≡ fault_of f };

    fn from(refusal: JoinFault) -> Fault {
        let (cause, place) = match refusal {
            JoinFault::UnknownPart(place) => (Cause::UnknownPart, place),
            JoinFault::NoSuchPartPin(place) => (Cause::NoSuchPartPin, place),
            JoinFault::BadEnd(place) => (Cause::BadEnd, place),
            JoinFault::WidthsDiffer(place) => (Cause::WidthsDiffer, place),
            JoinFault::FedTwice(place) => (Cause::FedTwice, place),
            JoinFault::LeftOpen(place) => (Cause::LeftOpen, place),
        };
        Fault { cause, place }
    }
}
