//! The atoms: Nand and DFF.
ghost use Rattle.std.specs.Prelude.{◌≡◌, ◌≤◌, MatchOption};
ghost use Rattle.kit.specs.Atoms.{number, atoms};
ghost use Rattle.kit.specs.AtomLaws.{atoms_sound};

use crate::header::{Header, Listed};
use crate::kits::Kit;
use crate::shape::{Pin, Size};

/// The kinds, in the order of their numbers.
#[derive(Clone, Copy)]
enum Atom {
    Nand,
    Dff,
}

const NAND: Header = Header {
    name: b"Nand",
    ins: &[Listed(b"a", 1), Listed(b"b", 1)],
    outs: &[Listed(b"out", 1)],
    clocked: false,
};

const DFF: Header = Header {
    name: b"DFF",
    ins: &[Listed(b"in", 1)],
    outs: &[Listed(b"out", 1)],
    clocked: true,
};

/// The headers of the kinds, each at its kind's number.
const KINDS: [Header; 2] = [NAND, DFF];

/// A kit of two kinds.
///
/// Kind 0, Nand, has the inputs `a` and `b` and the output `out`, which is 1 minus a times b and
/// waits for both. Kind 1, DFF, is clocked and has the input `in` and the output `out`: `out` is
/// the state's bit 0 and waits for nothing, and the next state is `in`.
#[derive(Clone, Copy)]
pub struct Atoms;

impl Atom {
    /// The kind of a number, or none.
    fn of(kind: usize) -> Option<Atom>
        ensures { MatchOption result (2 ≤ kind) (λ atom. kind ≡ number atom) }
    {
        match kind {
            0 => Some(Atom::Nand),
            1 => Some(Atom::Dff),
            _ => None,
        }
    }
}

impl Kit for Atoms {
    ghost model = { λ _. atoms };

    ghost sound = { λ _. atoms_sound };

    // `pin` and `size` ask the kind's header by its name and not the table: a header that is a constant costs
    // nothing to read.
    fn count(&self) -> usize {
        KINDS.len()
    }

    fn find(&self, name: &[u8]) -> Option<usize> {
        Header::find(&KINDS, name)
    }

    fn pin(&self, kind: usize, name: &[u8]) -> Option<Pin> {
        match Atom::of(kind)? {
            Atom::Nand => NAND.pin(name),
            Atom::Dff => DFF.pin(name),
        }
    }

    fn size(&self, kind: usize) -> Size {
        match Atom::of(kind) {
            Some(Atom::Nand) => NAND.size(),
            Some(Atom::Dff) => DFF.size(),
            None => Size::NONE,
        }
    }

    fn out(&self, kind: usize, input: u64, state: u64) -> u64 {
        match Atom::of(kind) {
            Some(Atom::Nand) => 1 - (input & 1) * ((input >> 1) & 1),
            Some(Atom::Dff) => state & 1,
            None => 0,
        }
    }

    fn next(&self, kind: usize, input: u64, _state: u64) -> u64 {
        match Atom::of(kind) {
            Some(Atom::Nand) | None => 0,
            Some(Atom::Dff) => input & 1,
        }
    }

    fn waits(&self, kind: usize, output: usize) -> u64 {
        match Atom::of(kind) {
            Some(Atom::Nand) if output == 0 => 0b11,
            Some(Atom::Nand | Atom::Dff) | None => 0,
        }
    }
}
