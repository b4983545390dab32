//! What a kit is.
ghost use Rattle.std.specs.Prelude.{◌≡◌, ℕ, ◌<◌, ◌≤◌, IfSome};
ghost use Rattle.kit.specs.Models.{Model, Sound, size_of};

use crate::shape::{Pin, Size};

/// The most kinds that a kit has.
pub const MAX_KINDS: usize = 65535;

/// A kit: kinds of built-in parts, 0 to 65,535 of them, numbered from 0.
///
/// Every call only reads, and one question always gets one answer: that of the model.
/// `find` answers only kinds below the count. For other kinds `pin` answers none, `size` 0, 0 and
/// unclocked, and the rest 0.
///
/// Four laws hold of each kind.
/// 1. It has 1 to 64 output bits and at most 64 input bits, and `out` sets no bit beyond its
///    output bits.
/// 2. Each pin is 1 to 16 bits wide within its side, and two pins on one side, under different
///    names, share no bit.
/// 3. `next` of an unclocked kind is 0.
/// 4. Two input words that agree on the waits of an output bit give that bit the same level from
///    the same state.
// A kind is a number, since a pair counts the second kit's kinds on from the first's. Kind, input word and
// state are no struct: each arm of an answer would take it apart again.
pub trait Kit {
    ghost model: { Self → Model };

    ghost sound: { (kit : Self) → Sound (model kit) };

    /// How many kinds there are.
    fn count(&self) -> usize
        ensures is { result ≡ (model self.now).count }
        ensures few { result ≤ 65535 };

    /// The kind for a name, or none.
    fn find(&self, name: &[u8]) -> Option<usize>
        ensures is { result ≡ (model self.now).find name.now }
        ensures below { IfSome result (λ k. k < 65535) };

    /// The pin of a kind for a name, or none.
    fn pin(&self, kind: usize, name: &[u8]) -> Option<Pin>
        ensures { result ≡ (model self.now).pin kind name.now };

    /// The input bits and the output bits of a kind, and whether it is clocked.
    fn size(&self, kind: usize) -> Size
        ensures is { result ≡ size_of (model self.now) kind }
        ensures inputs { result.inputs ≤ 64 }
        ensures outputs { result.outputs ≤ 64 };

    /// The output word of a kind, from an input word and a state.
    fn out(&self, kind: usize, input: u64, state: u64) -> u64
        ensures { result ≡ (model self.now).out kind input state };

    /// The next state of a kind, from an input word and a state.
    fn next(&self, kind: usize, input: u64, state: u64) -> u64
        ensures { result ≡ (model self.now).next kind input state };

    /// The mask of the input bits that an output bit of a kind waits for, and 0 past the outputs.
    fn waits(&self, kind: usize, output: usize) -> u64
        ensures { result ≡ (model self.now).waits kind output };
}
