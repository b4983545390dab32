//! What is wrong with a text.
ghost use Rattle.std.specs.Prelude.{◌≡◌};
ghost use Rattle.parser.specs.declared.read_fault.ReadFault.TheVariants.{Lex};
ghost use Rattle.parser.specs.Faults.{fault_of};

use fault::{Cause, Fault, Place};
use lexer::LexFault;

/// What is wrong with a text, and where.
#[derive(Clone, Copy, Debug, PartialEq, Eq)]
pub enum ReadFault {
    /// No token stands there.
    Lex(LexFault),
    /// A pin, a part or a connection begins that the catalogue may not hold any more.
    TooManyRecords(Place),
    /// The token, or the text's end, makes no chip.
    BrokenGrammar(Place),
    /// The chip has another name than its entry.
    OtherChipName(Place),
    /// The pin in front has a name that is declared, a width that is not 1 to 16, or no room on its side.
    BadPin(Place),
}

impl From<LexFault> for ReadFault {
    ghost from_gives = { λ f r. r ≡ Lex f };

    fn from(refusal: LexFault) -> ReadFault {
        ReadFault::Lex(refusal)
    }
}

impl From<ReadFault> for Fault {
    ghost from_gives = { λ f r. r ≡ fault_of f };

    fn from(refusal: ReadFault) -> Fault {
        let (cause, place) = match refusal {
            ReadFault::Lex(inner) => return Fault::from(inner),
            ReadFault::TooManyRecords(place) => (Cause::TooManyRecords, place),
            ReadFault::BrokenGrammar(place) => (Cause::BrokenGrammar, place),
            ReadFault::OtherChipName(place) => (Cause::OtherChipName, place),
            ReadFault::BadPin(place) => (Cause::BadPin, place),
        };
        Fault { cause, place }
    }
}
