//! The states of a reader.
use catalogue::{Side, Span, Subscript};

/// The part's end of a connection: a pin of the part, and which of its bits.
#[derive(Clone, Copy)]
pub struct Near {
    pub name: Span,
    pub bits: Subscript,
}

/// An end of a connection of which the name is read: the part's pin, or a pin at the far end.
#[derive(Clone, Copy)]
pub enum End {
    Near(Span),
    Far(Near, Span),
}

/// What is read of a text. Inside a part line the first span is that of the part's name.
#[derive(Clone, Copy)]
pub enum State {
    Start,
    /// Behind `CHIP`, the chip's name, and the brace.
    Chip,
    Called,
    Opened,
    /// A pin is to come; behind its name; behind the bracket, the width, and the other bracket.
    Pin(Side),
    PinNamed(Side, Span),
    WidthOpen(Side, Span),
    WidthRead(Side, Span, usize),
    PinWide(Side, Span, usize),
    /// Behind the pins of `IN`; behind those of `OUT`; behind `PARTS`.
    InsRead,
    Headed,
    Parts,
    /// The first part line is to come; another one or the brace; behind a part's name.
    FirstLine,
    NextLine,
    PartNamed(Span),
    /// A connection is to come.
    Connection(Span),
    /// Behind an end's name; behind its bracket, the first number, the dots, the second number, and
    /// the other bracket.
    EndNamed(Span, End),
    SubOpen(Span, End),
    SubLow(Span, End, usize),
    SubDots(Span, End, usize),
    SubHigh(Span, End, usize, usize),
    EndRead(Span, End, Subscript),
    /// Behind the equals sign; behind `true` or `false`.
    Equals(Span, Near),
    ConstantRead(Span, Near, bool),
    /// Behind the parenthesis of a part line; behind the last brace.
    Closed,
    Done,
}
