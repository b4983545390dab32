//! Records: a pin, a part line and a connection, each with its place in a text.
ghost use Rattle.std.specs.Prelude.{◌≡◌};
ghost use Rattle.catalogue.specs.Cuts.{cut};
ghost use Rattle.catalogue.specs.Records.{blank_connection, blank_part, blank_pin};
ghost use Rattle.catalogue.specs.Shapes.{joint_of, shape};

use crate::table::Record;
use fault::Place;
use kit::{Pin, Side};
use std::fmt;

// Part lines and connections name one another by number: their memory is lent and its size fixed, and
// nothing of them is on the heap.

/// Where a name stands in its text: its first byte, and how many bytes it has.
#[derive(Clone, Copy, Debug, PartialEq, Eq)]
pub struct Span {
    pub first: usize,
    pub len: usize,
}

/// Which bits of a pin are meant: all of them, `[n]`, or `[n..m]`.
#[derive(Clone, Copy, Debug, PartialEq, Eq)]
pub enum Subscript {
    All,
    Bit(usize),
    Range(usize, usize),
}

impl fmt::Display for Subscript {
    /// As it is written.
    fn fmt<W: fmt::Write>(&self, f: &mut fmt::Formatter<W>) -> fmt::Result {
        match self {
            Subscript::All => Ok(()),
            Subscript::Bit(n) => write!(f, "[{n}]"),
            Subscript::Range(n, m) => write!(f, "[{n}..{m}]"),
        }
    }
}

/// A pin that a chip declares.
#[derive(Clone, Copy, Debug, PartialEq, Eq)]
pub struct PinRecord {
    pub entry: usize,
    pub name: Span,
    // These three are columns of docs/CATALOGUE.md, and become the kit's `Pin` by `From`.
    pub side: Side,
    /// The first bit of the pin on its side.
    pub offset: usize,
    pub width: usize,
}

/// What a part is: a chip of the bundle, or a kind of the kit.
#[derive(Clone, Copy, Debug, PartialEq, Eq)]
pub enum Piece {
    Entry(usize),
    Kind(usize),
}

/// A part line.
#[derive(Clone, Copy, Debug, PartialEq, Eq)]
pub struct PartRecord {
    pub entry: usize,
    pub name: Span,
    /// The number of the first of its connections, and how many there are.
    pub connections: usize,
    pub count: usize,
    /// Resolved by joining.
    pub piece: Piece,
}

/// The far end of a connection as it is written.
#[derive(Clone, Copy, Debug, PartialEq, Eq)]
pub enum FarEnd {
    Constant(bool),
    Pin(Span, Subscript),
}

/// What the far end of a connection is: a constant, bits of the chip's inputs or outputs from this
/// one on, or the internal pin that the connection of this number is the first to mention.
#[derive(Clone, Copy, Debug, PartialEq, Eq)]
pub enum Target {
    Constant(bool),
    Input(usize),
    Output(usize),
    Internal(usize),
}

/// Which bits of the part a connection joins, and to what.
#[derive(Clone, Copy, Debug, PartialEq, Eq)]
pub struct Joint {
    pub side: Side,
    pub offset: usize,
    pub width: usize,
    pub target: Target,
}

/// A connection of a part line.
#[derive(Clone, Copy, Debug, PartialEq, Eq)]
pub struct ConnectionRecord {
    pub entry: usize,
    pub name: Span,
    /// The number of the part whose pin this is.
    pub part: usize,
    pub bits: Subscript,
    pub far: FarEnd,
    /// Resolved by joining.
    pub joint: Joint,
}

impl Span {
    pub const BLANK: Span = Span { first: 0, len: 0 };

    /// Where it begins, in the text of an entry.
    pub fn place(self, entry: usize) -> Place
        ensures { result ≡ record { entry = entry; byte = self.first } }
    {
        Place {
            entry,
            byte: self.first,
        }
    }

    /// The bytes that stand there, as far as the text has them.
    pub fn cut<'t>(self, text: &'t [u8]) -> &'t [u8]
        ensures { result.now ≡ cut text.now self }
    {
        let first = self.first.min(text.len());
        let len = self.len.min(text.len() - first);
        &text[first..first + len]
    }
}

impl From<&PinRecord> for Pin {
    ghost from_gives = { λ p r. r ≡ shape p.now };

    fn from(pin: &PinRecord) -> Pin {
        Pin {
            side: pin.side,
            first: pin.offset,
            width: pin.width,
        }
    }
}

impl Joint {
    pub const BLANK: Joint = Joint {
        side: Side::In,
        offset: 0,
        width: 0,
        target: Target::Constant(false),
    };

    /// These bits of a part, joined to that.
    pub fn of(near: Pin, target: Target) -> Joint
        ensures { result ≡ joint_of near target }
    {
        Joint {
            side: near.side,
            offset: near.first,
            width: near.width,
            target,
        }
    }
}

impl Record for PinRecord {
    ghost BLANK = { blank_pin };

    const BLANK: PinRecord = PinRecord {
        entry: 0,
        name: Span::BLANK,
        side: Side::In,
        offset: 0,
        width: 0,
    };
}

impl Record for PartRecord {
    ghost BLANK = { blank_part };

    const BLANK: PartRecord = PartRecord {
        entry: 0,
        name: Span::BLANK,
        connections: 0,
        count: 0,
        piece: Piece::Entry(0),
    };
}

impl Record for ConnectionRecord {
    ghost BLANK = { blank_connection };

    const BLANK: ConnectionRecord = ConnectionRecord {
        entry: 0,
        name: Span::BLANK,
        part: 0,
        bits: Subscript::All,
        far: FarEnd::Constant(false),
        joint: Joint::BLANK,
    };
}
