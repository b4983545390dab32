//! The rule of the layout that a broken bundle breaks.
ghost use Rattle.std.specs.Prelude.{◌≡◌};
ghost use Rattle.fault.specs.Faults.{nowhere};
ghost use Rattle.fault.specs.declared.Cause.TheVariants.{BrokenLayout};

use fault::{Cause, Fault};
use std::error::Error;
use std::fmt;

/// The first rule that the bytes break. Entries are numbered from 0.
#[derive(Clone, Copy, Debug, PartialEq, Eq)]
pub enum Breach {
    /// Fewer than the two bytes that hold the number of entries.
    NoCount,
    /// More than 65,535 bytes.
    TooLong,
    /// More than 128 entries.
    TooManyEntries,
    /// The bundle ends inside its table of contents.
    ContentsCut,
    /// The entry's name is no name, or is not padded with zeros.
    BadName(usize),
    /// The entry's name does not come after the name before it.
    NotRising(usize),
    /// The entry's text does not start where the one before it ends.
    Displaced(usize),
    /// The entry's text goes past the bundle's end.
    PastEnd(usize),
    /// Bytes are left behind the last text.
    LeftOver,
}

impl fmt::Display for Breach {
    /// Which rule is broken, in words for a person.
    fn fmt<W: fmt::Write>(&self, f: &mut fmt::Formatter<W>) -> fmt::Result {
        match self {
            Breach::NoCount => {
                write!(
                    f,
                    "a bundle begins with two bytes, the number of its entries"
                )
            }
            Breach::TooLong => write!(f, "a bundle has at most 65535 bytes"),
            Breach::TooManyEntries => write!(f, "a bundle has at most 128 entries"),
            Breach::ContentsCut => write!(f, "the bundle ends inside its table of contents"),
            Breach::BadName(k) => {
                write!(
                    f,
                    "entry {k}: its name is no name, or is not padded with zeros"
                )
            }
            Breach::NotRising(k) => {
                write!(
                    f,
                    "entry {k}: its name does not come after the name before it"
                )
            }
            Breach::Displaced(k) => {
                write!(
                    f,
                    "entry {k}: its text does not start where the one before it ends"
                )
            }
            Breach::PastEnd(k) => write!(f, "entry {k}: its text goes past the end of the bundle"),
            Breach::LeftOver => write!(f, "bytes are left behind the last text"),
        }
    }
}

impl Error for Breach {}

impl From<Breach> for Fault {
    ghost from_gives = { λ _ r. r ≡ nowhere BrokenLayout };

    fn from(_b: Breach) -> Fault {
        Fault::of_whole(Cause::BrokenLayout)
    }
}
