//! What a token says to the catalogue.
ghost use Rattle.std.specs.Prelude.{◌≡◌};
ghost use Rattle.parser.specs.Events.{end_event, line_end, event_of, is_done, opens};

use catalogue::{FarEnd, Side, Span, Subscript};
use progress::{End, Near, State};

// Data and no closure: what a token says is proved before anything is done with it.
#[derive(Clone, Copy)]
pub enum Event {
    /// This is the chip's name.
    ChipNamed,
    /// The pins of a side come next.
    SideBegun,
    /// A pin, a part line or a connection begins with this name.
    PinBegun,
    PartBegun,
    ConnectionBegun,
    /// The pin in front is complete: its side, its name and its width.
    PinEnded(Side, Span, usize),
    /// The connection in front is complete: either end, and the part's name if it is the last of its
    /// line.
    ConnectionEnded(Near, FarEnd, Option<Span>),
}

/// Whether a width or a subscript begins.
fn opens(state: State) -> bool
    ensures { result ≡ opens state }
{
    matches!(state, State::WidthOpen(_, _) | State::SubOpen(_, _))
}

/// The part's name, where the connections of its line are read.
fn line_end(part: Span, state: State) -> Option<Span>
    ensures { result ≡ line_end part state }
{
    matches!(state, State::Closed).then_some(part)
}

/// Whether a whole chip is read.
pub fn is_done(state: State) -> bool
    ensures { result ≡ is_done state }
{
    matches!(state, State::Done)
}

/// Behind an end of a connection with its subscript.
fn behind_end(part: Span, end: End, bits: Subscript, next: State) -> Option<Event>
    ensures { result ≡ end_event part end bits next }
{
    match end {
        End::Near(_) => None,
        End::Far(near, name) => Some(Event::ConnectionEnded(
            near,
            FarEnd::Pin(name, bits),
            line_end(part, next),
        )),
    }
}

impl Event {
    /// What the token says that leads from one state to the next, if anything.
    pub fn of(state: State, next: State) -> Option<Event>
        ensures { result ≡ event_of state next }
    {
        match state {
            State::Chip => Some(Event::ChipNamed),
            State::Opened | State::InsRead => Some(Event::SideBegun),
            State::Pin(_) => Some(Event::PinBegun),
            State::PinNamed(side, name) if !opens(next) => Some(Event::PinEnded(side, name, 1)),
            State::PinWide(side, name, width) => Some(Event::PinEnded(side, name, width)),
            State::FirstLine => Some(Event::PartBegun),
            State::NextLine if !is_done(next) => Some(Event::PartBegun),
            State::Connection(_) => Some(Event::ConnectionBegun),
            State::EndNamed(part, end) if !opens(next) => {
                behind_end(part, end, Subscript::All, next)
            }
            State::EndRead(part, end, bits) => behind_end(part, end, bits, next),
            State::ConstantRead(part, near, level) => {
                Some(Event::ConnectionEnded(near, FarEnd::Constant(level), line_end(part, next)))
            }
            _ => None,
        }
    }
}
