//! A connection is joined, where the connections before it are.
ghost use Rattle.std.specs.Prelude.{◌≡◌, ℕ, ◌<◌, List, length, IfSome, Decides, MatchResult, slice_index_or};
ghost use Rattle.bundle.specs.Layout.{count, text};
ghost use Rattle.catalogue.specs.Records.{blank_connection};
ghost use Rattle.joiner.specs.Feeding.{FedBefore, feed};
ghost use Rattle.joiner.specs.Feeders.{Feeders, SinkBelow, first_feeder};
ghost use Rattle.joiner.specs.Meaning.{earlier_mention, mentions};
ghost use Rattle.joiner.specs.Scopes.{OtherTexts};
ghost use Rattle.joiner.specs.Stages.{LeadsTo, NameLeadsTo, NextJoined, NextStage, TextFrom, Unjoins};

use crate::ends::{Far, chip_end, constant_end, internal_end, slice};
use crate::feeds::{Sink, feed_of, is_fed};
use crate::join_fault::JoinFault;
use crate::scope::Scope;
use catalogue::{ConnectionRecord, FarEnd, Joint, PartRecord, Piece, Span, Subscript};
use kit::{Kit, Pin};

/// The connection `i`, whose turn it is to be joined. No connection before `from` is of its text.
#[derive(Drop)]
pub(crate) struct Turn<'s, 'a, K> {
    pub scope: &'s Scope<'a, K>,
    pub parts: &'s [PartRecord],
    pub connections: &'s [ConnectionRecord],
    pub from: usize,
    pub i: usize,
    pub ghost within: { i < length connections.now },
    pub ghost below: { (slice_index_or connections.now i blank_connection).entry < count scope.now.bundle.bytes.now },
    pub ghost others: { OtherTexts connections.now from (slice_index_or connections.now i blank_connection).entry },
}

/// Whether a connection of an entry's text mentions the name at its far end.
fn mentions(source: &[u8], chip: usize, name: &[u8], connection: &ConnectionRecord) -> bool
    ensures { (s : List ℕ) → source.now ≡ text s chip → result ≡ mentions s chip name.now connection.now }
{
    match connection.far {
        FarEnd::Constant(_) => false,
        FarEnd::Pin(span, _) => connection.entry == chip && text::same(span.cut(source), name),
    }
}

impl<'s, 'a, K: Kit> Turn<'s, 'a, K> {
    /// The first connection before this one, of the same text, that mentions the name.
    fn earlier_mention(&self, name: &[u8]) -> Option<usize>
        ensures { result ≡ earlier_mention self.now.scope.now.bundle.bytes.now self.now.connections.now (slice_index_or self.now.connections.now self.now.i blank_connection).entry name.now self.now.i }
    {
        let chip = self.connections[self.i].entry;
        let source = self.scope.source(chip);
        let at = self.connections[self.from..self.i]
            .iter()
            .position(|connection| mentions(source, chip, name, connection))?;
        Some(self.from + at)
    }

    /// The name at the far end: a pin of the chip if declared, else an internal pin.
    fn named_end(&self, near: Pin, span: Span, bits: Subscript) -> Option<Far>
        ensures { NameLeadsTo (K.Kit.model self.now.scope.now.kit.now) self.now.scope.now.bundle.bytes.now self.now.scope.now.pins.now self.now.connections.now self.now.i near span bits result }
    {
        let chip = self.connections[self.i].entry;
        let name = self.scope.word(chip, span);
        if let Some(pin) = self.scope.pin(Piece::Entry(chip), name) {
            return chip_end(near.side, slice(pin, bits)?);
        }
        match self.earlier_mention(name) {
            Some(mention) => internal_end(mention, self.connections[mention].joint.width, bits),
            None => internal_end(self.i, near.width, bits),
        }
    }

    /// What stands at the far end of the connection, which joins these bits of its part, if it may.
    fn far_end(&self, near: Pin) -> Option<Far>
        ensures { LeadsTo (K.Kit.model self.now.scope.now.kit.now) self.now.scope.now.bundle.bytes.now self.now.scope.now.pins.now self.now.connections.now self.now.i near result }
    {
        match self.connections[self.i].far {
            FarEnd::Constant(level) => constant_end(near.side, near.width, level),
            FarEnd::Pin(span, bits) => self.named_end(near, span, bits),
        }
    }

    /// The first connection that can feed a sink: the part's first, that of the chip's text, or
    /// the one that first mentions the internal pin.
    fn first_feeder(&self, sink: Sink) -> usize
        requires { SinkBelow (length self.now.parts.now) sink }
        ensures { result ≡ first_feeder self.now.parts.now self.now.from sink }
    {
        match sink {
            Sink::PartInputs(p) => self.parts[p].connections,
            Sink::ChipOutputs(_) => self.from,
            Sink::Internal(mention) => mention,
        }
    }

    /// Whether one of the connections before this one feeds what it does once it is joined.
    fn is_fed_before(&self, joined: &ConnectionRecord) -> bool
        requires { IfSome (feed joined.now) (λ f. Feeders self.now.parts.now self.now.connections.now self.now.from self.now.i f.sink) }
        ensures { Decides result (FedBefore self.now.connections.now self.now.i joined.now) }
    {
        // A match: where feeders begin is known of the feed alone, and a closure would be told nothing of it.
        match feed_of(joined) {
            Some(bits) => is_fed(
                &self.connections[self.first_feeder(bits.sink)..self.i],
                bits,
            ),
            None => false,
        }
    }

    /// The connection, joined. Here and nowhere else it is said what is wrong with a connection.
    pub(crate) fn join(&self) -> Result<ConnectionRecord, JoinFault>
        requires stage { NextStage (K.Kit.model self.now.scope.now.kit.now) self.now.scope.now.bundle.bytes.now self.now.scope.now.pins.now self.now.parts.now self.now.connections.now self.now.i }
        requires others { TextFrom self.now.scope.now.bundle.bytes.now self.now.from (slice_index_or self.now.connections.now self.now.i blank_connection).part }
        ensures { MatchResult result
            (λ c. NextJoined (K.Kit.model self.now.scope.now.kit.now) self.now.scope.now.bundle.bytes.now self.now.scope.now.pins.now self.now.parts.now self.now.connections.now self.now.i c)
            (λ f. Unjoins (K.Kit.model self.now.scope.now.kit.now) self.now.scope.now.bundle.bytes.now f) }
    {
        let mut connection = self.connections[self.i];
        let place = connection.name.place(connection.entry);
        let name = self.scope.word(connection.entry, connection.name);
        let Some(pin) = self.scope.pin(self.parts[connection.part].piece, name) else {
            return Err(JoinFault::NoSuchPartPin(place));
        };
        let Some(near) = slice(pin, connection.bits) else {
            return Err(JoinFault::BadEnd(place));
        };
        let Some(far) = self.far_end(near) else {
            return Err(JoinFault::BadEnd(place));
        };
        if far.width != near.width {
            return Err(JoinFault::WidthsDiffer(place));
        }
        connection.joint = Joint::of(near, far.target);
        if self.is_fed_before(&connection) {
            return Err(JoinFault::FedTwice(place));
        }
        Ok(connection)
    }
}
