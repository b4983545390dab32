//! What is at fault, and where: the answer of whatever refuses.
//!
//! Each layer has a fault type of its own where it knows more, and an `impl From` that makes a
//! `Fault` of it with the place kept whole, so that `?` hands it up to the caller.
#![tactic(auto)]

ghost use Rattle.std.specs.Prelude.{◌≡◌, Decides};
ghost use Rattle.fault.specs.Faults.{layer_of, nowhere, number_of};

use std::fmt;

/// The part of the bench that found a fault.
#[derive(Clone, Copy, Debug, PartialEq, Eq)]
pub enum Layer {
    Bundle,
    Reading,
    Joining,
    Nesting,
    Board,
}

/// What is at fault. The numbers are those that people and other programs see.
#[derive(Clone, Copy, Debug, PartialEq, Eq)]
pub enum Cause {
    SmallCatalogue = 1,
    BrokenLayout = 2,
    TooManyRecords = 3,
    NoToken = 4,
    BrokenGrammar = 5,
    OtherChipName = 6,
    BadPin = 7,
    UnknownPart = 8,
    NoSuchPartPin = 9,
    BadEnd = 10,
    WidthsDiffer = 11,
    FedTwice = 12,
    LeftOpen = 13,
    ChipsInRing = 14,
    NoSuchTop = 15,
    TooLarge = 16,
    Loop = 17,
    BlankBoard = 18,
    WrongPhase = 19,
    NoSuchPin = 20,
    ValueTooWide = 21,
    StaleBoard = 22,
    NoTrialOpen = 23,
    TrialOpen = 24,
    TallyFull = 25,
}

impl Cause {
    /// Whether it is this cause.
    // What a derive promises is not written: this says what `==` means.
    pub fn is(self, other: Cause) -> bool
        ensures { Decides result (self ≡ other) }
    {
        self == other
    }

    // Asked for by name, since a cause is no number: `u8::from(cause)` would say less.
    pub fn number(self) -> u8
        ensures { result ≡ number_of self }
    {
        self as u8
    }

    pub fn layer(self) -> Layer
        ensures { result ≡ layer_of self }
    {
        match self {
            Cause::SmallCatalogue | Cause::BrokenLayout => Layer::Bundle,
            Cause::TooManyRecords
            | Cause::NoToken
            | Cause::BrokenGrammar
            | Cause::OtherChipName
            | Cause::BadPin => Layer::Reading,
            Cause::UnknownPart
            | Cause::NoSuchPartPin
            | Cause::BadEnd
            | Cause::WidthsDiffer
            | Cause::FedTwice
            | Cause::LeftOpen => Layer::Joining,
            Cause::ChipsInRing | Cause::NoSuchTop | Cause::TooLarge | Cause::Loop => Layer::Nesting,
            Cause::BlankBoard
            | Cause::WrongPhase
            | Cause::NoSuchPin
            | Cause::ValueTooWide
            | Cause::StaleBoard
            | Cause::NoTrialOpen
            | Cause::TrialOpen
            | Cause::TallyFull => Layer::Board,
        }
    }
}

impl fmt::Display for Cause {
    /// What is wrong, in words for a person.
    fn fmt<W: fmt::Write>(&self, f: &mut fmt::Formatter<W>) -> fmt::Result {
        f.write_str(match self {
            Cause::SmallCatalogue => "the catalogue has too few records",
            Cause::BrokenLayout => "the layout is broken",
            Cause::TooManyRecords => {
                "the texts have more pins, parts or connections than the catalogue holds"
            }
            Cause::NoToken => "no token begins here, or a comment is not closed",
            Cause::BrokenGrammar => "the text does not continue like this",
            Cause::OtherChipName => "the chip is not named as its text is",
            Cause::BadPin => {
                "the pin before is declared twice, is not 1 to 16 bits wide, or makes its side wider than 64 bits"
            }
            Cause::UnknownPart =>
                "neither the bundle nor the kit has a part of this name: pack its text too, or mend the name",
            Cause::NoSuchPartPin => "the part has no such pin: its header has the names",
            Cause::BadEnd => {
                "a subscript or a far end is not allowed here: subscripts lie within the pin, an internal pin takes none, a part's input takes an input pin, an internal pin or a constant, and a part's output feeds an output pin or an internal pin"
            },
            Cause::WidthsDiffer => "the two ends differ in width: join as many bits on both sides",
            Cause::FedTwice =>
                "this feeds a bit that is fed already: leave one of the two connections out",
            Cause::LeftOpen =>
                "this is never fed: connect each input bit of a part, each output bit of the chip and each internal pin",
            Cause::ChipsInRing => "chips hold one another in a ring",
            Cause::NoSuchTop => "the bundle has no such chip",
            Cause::TooLarge => "the chip is larger than the board",
            Cause::Loop => "the chip has a loop",
            Cause::BlankBoard => "no chip is loaded",
            Cause::WrongPhase => "the clock is in the other phase",
            Cause::NoSuchPin => "the chip has no such pin",
            Cause::ValueTooWide => "the value is wider than the pin",
            Cause::StaleBoard => "a pin was set and the board is not settled since",
            Cause::NoTrialOpen => "no trial is open",
            Cause::TrialOpen => "a trial is open already",
            Cause::TallyFull => "65535 trials are begun, or 65535 comparisons made in this trial",
        })
    }
}

impl fmt::Display for Layer {
    fn fmt<W: fmt::Write>(&self, f: &mut fmt::Formatter<W>) -> fmt::Result {
        f.write_str(match self {
            Layer::Bundle => "bundle",
            Layer::Reading => "reading",
            Layer::Joining => "joining",
            Layer::Nesting => "nesting",
            Layer::Board => "board",
        })
    }
}

/// Where a fault stands: the number of the entry and the byte of its text, both from 0.
#[derive(Clone, Copy, Debug, PartialEq, Eq, PartialOrd, Ord)]
pub struct Place {
    pub entry: usize,
    pub byte: usize,
}

/// A refusal. Number and layer follow from the cause; outside reading and joining the place is
/// entry 0, byte 0.
#[derive(Clone, Copy, Debug, PartialEq, Eq)]
pub struct Fault {
    pub cause: Cause,
    pub place: Place,
}

impl Fault {
    /// A fault that stands at no place in a text.
    // No Option: every fault has a place, entry 0 and byte 0 where it stands in no text (docs/FAULTS.md).
    pub fn of_whole(cause: Cause) -> Fault
        ensures { result ≡ nowhere cause }
    {
        Fault {
            cause,
            place: Place { entry: 0, byte: 0 },
        }
    }
}
