//! What a command answers in place of a text when it refuses.
ghost use Rattle.std.specs.Prelude.{◌≡◌};
ghost use Rattle.report.specs.declared.refusals.Refusal.TheVariants.{NoMemory};

use crate::faults::fault_text;
use fault::Fault;
use std::alloc::{AllocError, Global};

/// Why a command does not answer what was asked for.
#[derive(Debug, Drop)]
pub enum Refusal {
    /// The bundle has a fault, and this tells a person of it.
    Told(Vec<u8>),
    /// There is no memory for the answer.
    NoMemory,
}

impl From<AllocError> for Refusal {
    ghost from_gives = { λ _ r. r ≡ NoMemory };

    fn from(_e: AllocError) -> Refusal {
        Refusal::NoMemory
    }
}

/// The refusal of a bundle for its fault, and for the rule of its layout that is broken if that is it.
// No `ensures`: that the answer is a refusal is its type, and no contract fixes the words.
pub fn refused(heap: Global, bytes: &[u8], fault: Fault) -> Refusal {
    fault_text(heap, bytes, fault).map_or_else(Refusal::from, Refusal::Told)
}
