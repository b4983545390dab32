//! What each token makes of a state.
ghost use Rattle.std.specs.Prelude.{◌≡◌};
ghost use Rattle.lexer.specs.Lexemes.{lexeme};
ghost use Rattle.grammar.specs.Progress.{State as Reached, follow as followed};
ghost use Rattle.progress.specs.Moves.{AfterConnection, AfterEnd, AfterPin, MarkMove, Stops, Turns, name_move, number_move, pins_listed};
ghost use Rattle.progress.specs.Shapes.{Agrees, shape};

use crate::state::{End, Near, State};
use catalogue::{Side, Span, Subscript};
use lexer::{Kind, Token};

/// The state behind the one mark that goes on.
fn wanted(mark: Kind, only: Kind, next: State) -> Option<State>
    ensures { Turns mark only next Stops result }
{
    (mark == only).then_some(next)
}

/// The state behind one of two marks.
fn either(mark: Kind, one: Kind, next: State, other: Kind, instead: State) -> Option<State>
    ensures { Turns mark one next (Turns mark other instead Stops) result }
{
    if mark == one {
        Some(next)
    } else {
        wanted(mark, other, instead)
    }
}

/// Behind the pins of a side.
fn listed(side: Side) -> State
    ensures { result ≡ pins_listed side }
{
    match side {
        Side::In => State::InsRead,
        Side::Out => State::Headed,
    }
}

/// Behind a pin: a comma, or the semicolon that ends the list.
fn after_pin(side: Side, mark: Kind) -> Option<State>
    ensures { AfterPin side mark result }
{
    either(
        mark,
        Kind::Comma,
        State::Pin(side),
        Kind::Semicolon,
        listed(side),
    )
}

/// Behind a connection: a comma, or the parenthesis that ends the line.
fn after_connection(part: Span, mark: Kind) -> Option<State>
    ensures { AfterConnection part mark result }
{
    either(
        mark,
        Kind::Comma,
        State::Connection(part),
        Kind::CloseParen,
        State::Closed,
    )
}

/// Behind an end with its subscript.
fn after_end(part: Span, end: End, bits: Subscript, mark: Kind) -> Option<State>
    ensures { AfterEnd part end bits mark result }
{
    match end {
        End::Near(name) => wanted(mark, Kind::Equals, State::Equals(part, Near { name, bits })),
        End::Far(_, _) => after_connection(part, mark),
    }
}

impl State {
    /// A name is next.
    fn on_name(self, name: Span) -> Option<State>
        ensures { result ≡ name_move self name }
    {
        match self {
            State::Chip => Some(State::Called),
            State::Pin(side) => Some(State::PinNamed(side, name)),
            State::FirstLine | State::NextLine => Some(State::PartNamed(name)),
            State::Connection(part) => Some(State::EndNamed(part, End::Near(name))),
            State::Equals(part, near) => Some(State::EndNamed(part, End::Far(near, name))),
            _ => None,
        }
    }

    /// A number is next.
    fn on_number(self, n: usize) -> Option<State>
        ensures { result ≡ number_move self n }
    {
        match self {
            State::WidthOpen(side, name) => Some(State::WidthRead(side, name, n)),
            State::SubOpen(part, end) => Some(State::SubLow(part, end, n)),
            State::SubDots(part, end, low) => Some(State::SubHigh(part, end, low, n)),
            _ => None,
        }
    }

    /// A reserved word or a mark is next.
    fn on_mark(self, mark: Kind) -> Option<State>
        ensures { MarkMove self mark result }
    {
        match self {
            State::Start => wanted(mark, Kind::Chip, State::Chip),
            State::Called => wanted(mark, Kind::OpenBrace, State::Opened),
            State::Opened => either(
                mark,
                Kind::In,
                State::Pin(Side::In),
                Kind::Out,
                State::Pin(Side::Out),
            ),
            State::PinNamed(side, name) => {
                if mark == Kind::OpenBracket {
                    Some(State::WidthOpen(side, name))
                } else {
                    after_pin(side, mark)
                }
            }
            State::WidthRead(side, name, width) => {
                wanted(mark, Kind::CloseBracket, State::PinWide(side, name, width))
            }
            State::PinWide(side, _, _) => after_pin(side, mark),
            State::InsRead => wanted(mark, Kind::Out, State::Pin(Side::Out)),
            State::Headed => wanted(mark, Kind::Parts, State::Parts),
            State::Parts => wanted(mark, Kind::Colon, State::FirstLine),
            State::NextLine => wanted(mark, Kind::CloseBrace, State::Done),
            State::PartNamed(part) => wanted(mark, Kind::OpenParen, State::Connection(part)),
            State::EndNamed(part, end) => {
                if mark == Kind::OpenBracket {
                    Some(State::SubOpen(part, end))
                } else {
                    after_end(part, end, Subscript::All, mark)
                }
            }
            State::SubLow(part, end, n) => either(
                mark,
                Kind::CloseBracket,
                State::EndRead(part, end, Subscript::Bit(n)),
                Kind::Dots,
                State::SubDots(part, end, n),
            ),
            State::SubHigh(part, end, n, m) => {
                wanted(
                    mark,
                    Kind::CloseBracket,
                    State::EndRead(part, end, Subscript::Range(n, m)),
                )
            }
            State::EndRead(part, end, bits) => after_end(part, end, bits, mark),
            State::Equals(part, near) => either(
                mark,
                Kind::True,
                State::ConstantRead(part, near, true),
                Kind::False,
                State::ConstantRead(part, near, false),
            ),
            State::ConstantRead(part, _, _) => after_connection(part, mark),
            State::Closed => wanted(mark, Kind::Semicolon, State::NextLine),
            _ => None,
        }
    }

    /// The state behind a token whose first byte is `first`, or `None` where no chip goes on so.
    pub fn follow(self, token: Token<'_>, first: usize) -> Option<State>
        ensures { (st : Reached) → self ≡ shape st → Agrees result (followed st (lexeme first token.entry)) }
    {
        match token {
            Token::Name(bytes) => self.on_name(Span {
                first,
                len: bytes.len(),
            }),
            Token::Number(n) => self.on_number(usize::from(n)),
            _ => self.on_mark(token.kind()),
        }
    }
}
