//! What is left open when all is joined: input bits of parts, output bits of chips, and internal
//! pins that nothing feeds.
ghost use Rattle.std.specs.Prelude.{◌≡◌, ◌+◌, ◌<◌, ◌≤◌, length, All, Decides, slice_index_or};
ghost use Rattle.catalogue.specs.Records.{blank_connection, blank_pin, blank_part};
ghost use Rattle.wellformed.specs.WellFormed.{PinFits};
ghost use Rattle.joiner.specs.Opens.{FirstPlace, OpenAsInput, OpenAsInternal, OpenAsOutput, OpenAsPart, bits_at, connection_at, line_of, part_at, pin_at, sooner_of};

use crate::feeds::{Feed, Sink, is_open};
use crate::scope::Scope;
use catalogue::{ConnectionRecord, FarEnd, PartRecord, Piece, PinRecord, Side, Target};
use fault::Place;
use kit::Kit;

/// The bits of a declared pin, at a sink.
fn bits_at(sink: Sink, pin: &PinRecord) -> Feed
    ensures { result ≡ bits_at sink pin.now }
{
    Feed {
        sink,
        first: pin.offset,
        width: pin.width,
    }
}

// Three kinds of record are sought through, by a chain each.

/// Whether a bit of a pin, if it is an output, is never fed.
fn is_open_output(connections: &[ConnectionRecord], pin: &PinRecord) -> bool
    requires { PinFits pin.now }
    ensures { Decides result (OpenAsOutput connections.now pin.now) }
{
    pin.side == Side::Out && is_open(connections, bits_at(Sink::ChipOutputs(pin.entry), pin))
}

/// Where the first output pin is declared that has such a bit.
pub(crate) fn open_output<K: Kit>(
    scope: &Scope<'_, K>,
    connections: &[ConnectionRecord],
) -> Option<Place>
    ensures { FirstPlace (λ i. OpenAsOutput connections.now (slice_index_or scope.now.pins.now i blank_pin)) (λ i. pin_at (slice_index_or scope.now.pins.now i blank_pin)) (length scope.now.pins.now) result }
{
    let pin = scope
        .pins
        .iter()
        .find(|pin| is_open_output(connections, pin))?;
    Some(pin.name.place(pin.entry))
}

/// Whether a connection is the first to mention an internal pin that is never fed. None before
/// it can feed that pin.
fn is_open_internal(connections: &[ConnectionRecord], i: usize) -> bool
    requires { i < length connections.now }
    ensures { Decides result (OpenAsInternal connections.now i) }
{
    connections[i].joint.target == Target::Internal(i)
        && is_open(&connections[i..], Sink::Internal(i).bit(0))
}

/// Where a connection's far end stands: at its name, or at the connection if it is a constant.
fn far_place(connection: &ConnectionRecord) -> Place
    ensures { result ≡ connection_at connection.now }
{
    let name = match connection.far {
        FarEnd::Constant(_) => connection.name,
        FarEnd::Pin(name, _) => name,
    };
    name.place(connection.entry)
}

/// Where the first internal pin that is never fed is first mentioned.
pub(crate) fn open_internal(connections: &[ConnectionRecord]) -> Option<Place>
    ensures { FirstPlace (OpenAsInternal connections.now) (λ i. connection_at (slice_index_or connections.now i blank_connection)) (length connections.now) result }
{
    let (_, connection) = connections
        .iter()
        .enumerate()
        .find(|(i, _)| is_open_internal(connections, *i))?;
    Some(far_place(connection))
}

/// Whether a bit of a pin, if it is an input of the chip, is not fed at the part `p`.
fn is_open_input(connections: &[ConnectionRecord], p: usize, chip: usize, pin: &PinRecord) -> bool
    requires { PinFits pin.now }
    ensures { Decides result (OpenAsInput connections.now p chip pin.now) }
{
    pin.side == Side::In
        && pin.entry == chip
        && is_open(connections, bits_at(Sink::PartInputs(p), pin))
}

/// Whether an input bit of the part `p`, which is that piece, is not fed by these connections.
fn is_open_part<K: Kit>(
    scope: &Scope<'_, K>,
    connections: &[ConnectionRecord],
    p: usize,
    piece: Piece,
) -> bool
    ensures { Decides result (OpenAsPart (K.Kit.model scope.now.kit.now) scope.now.pins.now connections.now p piece) }
{
    match piece {
        Piece::Entry(chip) => scope
            .pins
            .iter()
            .any(|pin| is_open_input(connections, p, chip, pin)),
        Piece::Kind(kind) => is_open(
            connections,
            Feed {
                sink: Sink::PartInputs(p),
                first: 0,
                width: scope.kit.size(kind).inputs,
            },
        ),
    }
}

/// Where the first part stands that has an input bit which is never fed. Only the part's own
/// connections can feed it.
pub(crate) fn open_part<K: Kit>(
    scope: &Scope<'_, K>,
    parts: &[PartRecord],
    connections: &[ConnectionRecord],
) -> Option<Place>
    requires { All (λ part. part.connections + part.count ≤ length connections.now) parts.now }
    ensures { FirstPlace (λ p. OpenAsPart (K.Kit.model scope.now.kit.now) scope.now.pins.now (line_of (slice_index_or parts.now p blank_part) connections.now) p (slice_index_or parts.now p blank_part).piece) (λ p. part_at (slice_index_or parts.now p blank_part)) (length parts.now) result }
{
    let (_, part) = parts.iter().enumerate().find(|(p, part)| {
        let line = &connections[part.connections..part.connections + part.count];
        is_open_part(scope, line, *p, part.piece)
    })?;
    Some(part.name.place(part.entry))
}

/// The sooner of two places that may be none.
pub(crate) fn sooner(a: Option<Place>, b: Option<Place>) -> Option<Place>
    ensures { result ≡ sooner_of a b }
{
    match (a, b) {
        (Some(x), Some(y)) => Some(x.min(y)),
        _ => a.or(b),
    }
}
