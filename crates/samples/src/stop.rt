//! Why a program over samples ends early.
ghost use Rattle.std.specs.Prelude.{◌≡◌};
ghost use Rattle.samples.specs.declared.stop.Stop.TheVariants.{Memory, Stream, Unpacked};

use packer::PackFault;
use std::alloc::{AllocError, AllocFailed};
use std::io;

/// What went wrong.
#[derive(Clone, Copy, Debug, PartialEq, Eq)]
pub enum Stop {
    /// Memory ran out.
    Memory,
    /// A stream could not be read or written.
    Stream,
    /// The texts of a line make no bundle.
    Unpacked,
}

impl From<AllocError> for Stop {
    ghost from_gives = { λ _ r. r ≡ Memory };

    fn from(_e: AllocError) -> Stop {
        Stop::Memory
    }
}

impl<T: Drop> From<AllocFailed<T>> for Stop {
    ghost from_gives = { λ _ r. r ≡ Memory };

    fn from(_e: AllocFailed<T>) -> Stop {
        Stop::Memory
    }
}

impl From<io::Error> for Stop {
    ghost from_gives = { λ _ r. r ≡ Stream };

    fn from(_e: io::Error) -> Stop {
        Stop::Stream
    }
}

impl From<PackFault> for Stop {
    ghost from_gives = { λ _ r. r ≡ Unpacked };

    fn from(_e: PackFault) -> Stop {
        Stop::Unpacked
    }
}
