//! Why texts are not packed.
ghost use Rattle.std.specs.Prelude.{◌≡◌};
ghost use Rattle.packer.specs.declared.faults.PackFault.TheVariants.{NoMemory};

use std::alloc::AllocError;
use std::error::Error;
use std::fmt;

/// The first rule that the sources break. The number is that of the source at fault, from 0.
#[derive(Clone, Copy, Debug, PartialEq, Eq)]
pub enum PackFault {
    /// More than 128 sources.
    TooManyEntries,
    /// The source's name is no name.
    BadName(usize),
    /// A source before it has the same name.
    DuplicateName(usize),
    /// With the source's text the bundle would have more than 65,535 bytes.
    TooLong(usize),
    /// No rule is broken, but there is no memory for the bundle.
    NoMemory,
}

impl fmt::Display for PackFault {
    /// What is wrong and what to do, in words for a person who knows which source it is.
    fn fmt<W: fmt::Write>(&self, f: &mut fmt::Formatter<W>) -> fmt::Result {
        f.write_str(match self {
            PackFault::TooManyEntries => "texts are too many: a bundle holds at most 128",
            PackFault::BadName(_) => {
                "this is no name for a chip: name the file with a letter, then letters or digits, at most 32, and no reserved word, and .hdl"
            }
            PackFault::DuplicateName(_) => {
                "a text of this name is given already: leave one of them out"
            }
            PackFault::TooLong(_) => {
                "with this text the bundle passes 65535 bytes: leave texts out"
            }
            PackFault::NoMemory => "there is not enough memory to pack",
        })
    }
}

impl Error for PackFault {}

impl From<AllocError> for PackFault {
    ghost from_gives = { λ _ r. r ≡ NoMemory };

    fn from(_e: AllocError) -> PackFault {
        PackFault::NoMemory
    }
}
