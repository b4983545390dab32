//! The lexer's refusal.
ghost use Rattle.std.specs.Prelude.{◌≡◌};
ghost use Rattle.lexer.specs.Faults.{to_fault};

use fault::{Cause, Fault, Place};

/// At the place stands neither a separator, a token nor the end of the text.
#[derive(Clone, Copy, Debug, PartialEq, Eq)]
pub struct LexFault {
    pub place: Place,
}

impl From<LexFault> for Fault {
    ghost from_gives = { λ f r. r ≡ to_fault f };

    fn from(refusal: LexFault) -> Fault {
        Fault {
            cause: Cause::NoToken,
            place: refusal.place,
        }
    }
}
