//! What connections feed: input bits of parts, output bits of chips, and internal pins.
ghost use Rattle.std.specs.Prelude.{◌≡◌, ℕ, ◌+◌, ◌<◌, ◌≤◌, length, Decides};
ghost use Rattle.joiner.specs.Feeding.{FeedsAmong, Meet, FedIn, OpenIn, feed};

use catalogue::{ConnectionRecord, Joint, Side, Target};

/// What is fed: the inputs of a part, the outputs of an entry's chip, or the internal pin that a
/// connection is the first to mention.
#[derive(Clone, Copy, PartialEq)]
pub(crate) enum Sink {
    PartInputs(usize),
    ChipOutputs(usize),
    Internal(usize),
}

/// Bits of a sink, from the bit `first` on.
#[derive(Clone, Copy)]
pub(crate) struct Feed {
    pub sink: Sink,
    pub first: usize,
    pub width: usize,
}

impl Sink {
    /// One bit of it.
    pub(crate) fn bit(self, bit: usize) -> Feed
        ensures { result ≡ record { sink = self; first = bit; width = 1 } }
    {
        Feed {
            sink: self,
            first: bit,
            width: 1,
        }
    }
}

impl Feed {
    /// Whether some bit is among both.
    fn meets(self, other: Feed) -> bool
        ensures { Decides result (Meet self other) }
    {
        self.sink == other.sink
            && if self.first <= other.first {
                other.first - self.first < self.width && 0 < other.width
            } else {
                self.first - other.first < other.width && 0 < self.width
            }
    }
}

/// What a connection feeds, if it is joined.
pub(crate) fn feed_of(connection: &ConnectionRecord) -> Option<Feed>
    ensures { result ≡ feed connection.now }
{
    let Joint {
        side,
        offset,
        width,
        target,
    } = connection.joint;
    match (side, target) {
        (Side::In, _) => Some(Feed {
            sink: Sink::PartInputs(connection.part),
            first: offset,
            width,
        }),
        (Side::Out, Target::Output(first)) => Some(Feed {
            sink: Sink::ChipOutputs(connection.entry),
            first,
            width,
        }),
        (Side::Out, Target::Internal(mention)) => Some(Feed {
            sink: Sink::Internal(mention),
            first: 0,
            width,
        }),
        (Side::Out, Target::Constant(_) | Target::Input(_)) => None,
    }
}

/// Whether a connection feeds some of the bits.
fn feeds(connection: &ConnectionRecord, bits: Feed) -> bool
    ensures { Decides result (FeedsAmong connection.now bits) }
{
    feed_of(connection).is_some_and(|feed| feed.meets(bits))
}

/// Whether one of the connections feeds some of the bits.
pub(crate) fn is_fed(connections: &[ConnectionRecord], bits: Feed) -> bool
    ensures { Decides result (FedIn connections.now bits) }
{
    connections.iter().any(|connection| feeds(connection, bits))
}

/// Whether none of the connections feeds one of the bits.
pub(crate) fn is_open(connections: &[ConnectionRecord], bits: Feed) -> bool
    requires { bits.first + bits.width ≤ 64 }
    ensures { Decides result (OpenIn connections.now bits) }
{
    (bits.first..bits.first + bits.width).any(|bit| !is_fed(connections, bits.sink.bit(bit)))
}
