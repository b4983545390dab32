//! A text that is being read, token by token.
ghost use Rattle.std.specs.Prelude.{◌≡◌, ℕ, ◌+◌, ◌-◌, ◌<◌, ◌≤◌, length, Decides, MatchResult, ◌≢◌};
ghost use Rattle.catalogue.specs.Cuts.{cut};
ghost use Rattle.catalogue.specs.Records.{Records, no_joint};
ghost use Rattle.catalogue.specs.Holding.{Fills, Lent, Long, with_connection, with_part, with_pin};
ghost use Rattle.catalogue.specs.declared.records.Piece.TheVariants.{Entry};
ghost use Rattle.lexer.specs.Lexemes.{lexeme, name as named};
ghost use Rattle.lexer.specs.Steps.{Gives};
ghost use Rattle.parser.specs.declared.read_fault.ReadFault.TheVariants.{BadPin, OtherChipName, TooManyRecords};
ghost use Rattle.parser.specs.Verdicts.{Refused};
ghost use Rattle.parser.specs.Keeping.{Among, BadRecord, Declared, Known};

use crate::events::Event;
use crate::read_fault::ReadFault;
use catalogue::{
    CONNECTIONS, Catalogue, ConnectionRecord, FarEnd, Joint, PARTS, PINS, PartRecord, Piece,
    PinRecord, Span,
};
use fault::Place;
use lexer::Token;
use progress::{Near, State};

/// A text: the number and the name of its entry, its bytes, and the number of its first pin.
#[derive(Clone, Copy)]
pub struct Source<'n, 't> {
    pub entry: usize,
    pub name: &'n [u8],
    pub bytes: &'t [u8],
    pub pins: usize,
}

/// What is read: the state, how many bits the pins of the side have, and the number of the first
/// connection of the part line that is open or comes next.
#[derive(Clone, Copy)]
pub struct Reading {
    pub state: State,
    pub bits: usize,
    pub line: usize,
}

/// Whether a token is the name.
fn is_name(token: Token<'_>, name: &[u8]) -> bool
    ensures { (i : ℕ) → Decides result (lexeme i token.entry ≡ named i name.now) }
{
    match token {
        Token::Name(bytes) => text::same(bytes, name),
        _ => false,
    }
}

// What is read goes through the next two, so that `take` is one `match` with a call in each arm.

/// What is read, if the token is the name.
fn with_name(
    read: Reading,
    token: Token<'_>,
    name: &[u8],
    place: Place,
) -> Result<Reading, ReadFault>
    ensures { MatchResult result
        (λ x. (x ≡ read) × (lexeme place.byte token.entry ≡ named place.byte name.now))
        (λ f. (f ≡ OtherChipName place) × (lexeme place.byte token.entry ≢ named place.byte name.now)) }
{
    if is_name(token, name) {
        Ok(read)
    } else {
        Err(ReadFault::OtherChipName(place))
    }
}

/// What is read, if one record more is allowed.
fn with_room(read: Reading, used: usize, most: usize, place: Place) -> Result<Reading, ReadFault>
    ensures { MatchResult result (λ x. (x ≡ read) × (used < most)) (λ f. (f ≡ TooManyRecords place) × (most ≤ used)) }
{
    if used < most {
        Ok(read)
    } else {
        Err(ReadFault::TooManyRecords(place))
    }
}

impl<'t> Source<'_, 't> {
    /// The bytes at a span, as far as the text has them.
    fn bytes_at(self, span: Span) -> &'t [u8]
        ensures { result.now ≡ cut self.entry.bytes.now span }
    {
        span.cut(self.bytes)
    }

    /// Whether one of the pins has the name that these bytes are.
    fn is_among(self, pins: &[PinRecord], name: &[u8]) -> bool
        ensures { Decides result (Among self.entry.bytes.now pins.now name.now) }
    {
        pins.iter()
            .any(|pin| text::same(self.bytes_at(pin.name), name))
    }

    /// Whether a pin of the text has the name.
    fn is_declared(self, name: Span, catalogue: &Catalogue<'_>) -> bool
        ensures { Decides result (Declared self.entry.bytes.now self.entry.pins catalogue.now name) }
    {
        let pins = catalogue.pins.as_slice();
        let from = self.pins.min(pins.len());
        self.is_among(&pins[from..], self.bytes_at(name))
    }

    /// Whether a pin may not stand behind those that the text has.
    fn is_bad(self, pin: PinRecord, catalogue: &Catalogue<'_>) -> bool
        ensures { Decides result (BadRecord self.entry.bytes.now self.entry.pins catalogue.now pin) }
    {
        pin.width == 0
            || pin.width > 16
            || pin.offset.saturating_add(pin.width) > 64
            || self.is_declared(pin.name, catalogue)
    }

    /// Puts a pin into the catalogue, unless it is bad.
    fn end_pin(
        self,
        read: Reading,
        pin: PinRecord,
        place: Place,
        catalogue: &mut Catalogue<'_>,
    ) -> Result<Reading, ReadFault>
        ensures lent { Lent catalogue.old catalogue.new }
        ensures long { Long catalogue.old catalogue.new }
        ensures pin { MatchResult result
            (λ x. (x ≡ record { state = read.state; bits = pin.offset + pin.width; line = read.line })
            × (BadRecord self.entry.bytes.now self.entry.pins catalogue.old pin → ⊥)
            × ((z : Records) → Fills catalogue.old z → catalogue.old.pins.used < length catalogue.old.pins.rows.now → Fills catalogue.new (with_pin z pin)))
            (λ f. (f ≡ BadPin place)
            × BadRecord self.entry.bytes.now self.entry.pins catalogue.old pin) }
    {
        if self.is_bad(pin, catalogue) {
            return Err(ReadFault::BadPin(place));
        }
        catalogue.pins.push(pin);
        Ok(Reading {
            bits: pin.offset + pin.width,
            ..read
        })
    }

    /// Puts a connection into the catalogue, of the part that comes there next.
    fn end_connection(self, near: Near, far: FarEnd, catalogue: &mut Catalogue<'_>)
        ensures lent { Lent catalogue.old catalogue.new }
        ensures long { Long catalogue.old catalogue.new }
        ensures fills { (z : Records) → Fills catalogue.old z → catalogue.old.connections.used < length catalogue.old.connections.rows.now →
            Fills catalogue.new (with_connection z (record { entry = self.entry.entry; name = near.name; part = catalogue.old.parts.used; bits = near.bits; far = far; joint = no_joint })) }
    {
        let part = catalogue.parts.used;
        catalogue.connections.push(ConnectionRecord {
            entry: self.entry,
            name: near.name,
            part,
            bits: near.bits,
            far,
            joint: Joint::BLANK,
        });
    }

    /// Puts the part line into the catalogue whose connections are in it.
    fn end_line(self, read: Reading, name: Span, catalogue: &mut Catalogue<'_>) -> Reading
        ensures lent { Lent catalogue.old catalogue.new }
        ensures long { Long catalogue.old catalogue.new }
        ensures read { result ≡ record { state = read.state; bits = read.bits; line = catalogue.old.connections.used } }
        ensures fills { (z : Records) → Fills catalogue.old z → catalogue.old.parts.used < length catalogue.old.parts.rows.now →
            Fills catalogue.new (with_part z (record { entry = self.entry.entry; name = name; connections = read.line; count = catalogue.old.connections.used - read.line; piece = Entry 0 })) }
    {
        let line = catalogue.connections.used;
        catalogue.parts.push(PartRecord {
            entry: self.entry,
            name,
            connections: read.line,
            count: line.saturating_sub(read.line),
            piece: Piece::Entry(0),
        });
        Reading { line, ..read }
    }

    /// What is read with one token more, which stands at the place; or the text's first fault.
    pub fn take(
        self,
        reading: Reading,
        token: Token<'_>,
        place: Place,
        catalogue: &mut Catalogue<'_>,
    ) -> Result<Reading, ReadFault>
        ensures lent { Lent catalogue.old catalogue.new }
        ensures long { Long catalogue.old catalogue.new }
        ensures reads { (r : Records) (p q : ℕ) → Known self.entry r p catalogue.old reading → Gives self.entry.bytes.now p place.byte q token.entry → place.entry ≡ self.entry.entry → MatchResult result
            (λ x. Known self.entry r q catalogue.new x)
            (λ f. Refused self.entry.name.now r self.entry.bytes.now self.entry.entry f) }
    {
        let Some(next) = reading.state.follow(token, place.byte) else {
            return Err(ReadFault::BrokenGrammar(place));
        };
        let read = Reading {
            state: next,
            ..reading
        };
        let used = catalogue.counts();
        match Event::of(reading.state, next) {
            None => Ok(read),
            Some(Event::ChipNamed) => with_name(read, token, self.name, place),
            Some(Event::SideBegun) => Ok(Reading { bits: 0, ..read }),
            Some(Event::PinBegun) => with_room(read, used.pins, PINS, place),
            Some(Event::PartBegun) => with_room(read, used.parts, PARTS, place),
            Some(Event::ConnectionBegun) => with_room(read, used.connections, CONNECTIONS, place),
            Some(Event::PinEnded(side, name, width)) => {
                let pin = PinRecord {
                    entry: self.entry,
                    name,
                    side,
                    offset: read.bits,
                    width,
                };
                self.end_pin(read, pin, place, catalogue)
            }
            Some(Event::ConnectionEnded(near, far, line)) => {
                self.end_connection(near, far, catalogue);
                Ok(match line {
                    Some(part) => self.end_line(read, part, catalogue),
                    None => read,
                })
            }
        }
    }
}
