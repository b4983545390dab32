//! What names are looked up in.
ghost use Rattle.std.specs.Prelude.{◌≡◌, ℕ, ◌<◌, List, All};
ghost use Rattle.bundle.specs.Layout.{count, text};
ghost use Rattle.wellformed.specs.WellFormed.{PinFits};
ghost use Rattle.joiner.specs.Meaning.{declared, declares, piece_of, pin_of, word as word_at};
ghost use Rattle.joiner.specs.Scopes.{EntryBelow, FitFound};

use bundle::Bundle;
use catalogue::{Piece, PinRecord, Span};
use kit::{Kit, Pin};

/// The bundle, the kit behind it, and the pins that the bundle's chips declare.
#[derive(Drop)]
pub(crate) struct Scope<'a, K> {
    pub kit: &'a K,
    pub bundle: Bundle<'a>,
    pub pins: &'a [PinRecord],
    pub ghost fits: { All PinFits pins.now },
}

/// Whether a record is a pin of the name in an entry's text.
fn declares(source: &[u8], chip: usize, name: &[u8], pin: &PinRecord) -> bool
    ensures { (s : List ℕ) → source.now ≡ text s chip → result ≡ declares s chip name.now pin.now }
{
    pin.entry == chip && text::same(pin.name.cut(source), name)
}

impl<'a, K: Kit> Scope<'a, K> {
    /// An entry's text.
    // That an entry is below the count is said where it is named: a type for it would have to hold the bundle.
    pub(crate) fn source(&self, chip: usize) -> &'a [u8]
        requires { chip < count self.now.bundle.bytes.now }
        ensures { result.now ≡ text self.now.bundle.bytes.now chip }
    {
        match self.bundle.entry(chip) {
            Some(found) => found.text,
            None => b"",
        }
    }

    /// The name at a span of an entry's text.
    pub(crate) fn word(&self, chip: usize, name: Span) -> &'a [u8]
        requires { chip < count self.now.bundle.bytes.now }
        ensures { result.now ≡ word_at self.now.bundle.bytes.now chip name }
    {
        name.cut(self.source(chip))
    }

    /// What the name of a part means.
    pub(crate) fn piece(&self, name: &[u8]) -> Option<Piece>
        ensures { result ≡ piece_of (K.Kit.model self.now.kit.now) self.now.bundle.bytes.now name.now }
    {
        self.bundle
            .find(name)
            .map(Piece::Entry)
            .or_else(|| self.kit.find(name).map(Piece::Kind))
    }

    /// The pin of the name that an entry's text declares.
    // Not inlined: asked for in two places, the search would be a call of its own in each, and slower.
    #[inline(never)]
    fn declared(&self, chip: usize, name: &[u8]) -> Option<Pin>
        requires { chip < count self.now.bundle.bytes.now }
        ensures { result ≡ declared self.now.bundle.bytes.now self.now.pins.now chip name.now }
    {
        let source = self.source(chip);
        self.pins
            .iter()
            .find(|pin| declares(source, chip, name, pin))
            .map(Pin::from)
    }

    /// The pin of the name that a part has.
    pub(crate) fn pin(&self, piece: Piece, name: &[u8]) -> Option<Pin>
        requires { EntryBelow (count self.now.bundle.bytes.now) piece }
        ensures is { result ≡ pin_of (K.Kit.model self.now.kit.now) self.now.bundle.bytes.now self.now.pins.now piece name.now }
        ensures fits { FitFound result }
    {
        match piece {
            Piece::Entry(chip) => self.declared(chip, name),
            Piece::Kind(kind) => self.kit.pin(kind, name),
        }
    }
}
