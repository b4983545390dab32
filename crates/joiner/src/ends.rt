//! The two ends of a connection.
ghost use Rattle.std.specs.Prelude.{◌≡◌, ◌+◌, ◌≤◌};
ghost use Rattle.joiner.specs.Slices.{range_of, slice_of};
ghost use Rattle.joiner.specs.Meaning.{chip_far, constant_far, internal_far};

use catalogue::{Subscript, Target};
use kit::{Pin, Side};

/// What stands at the far end of a connection, and how wide it is.
#[derive(Clone, Copy)]
pub(crate) struct Far {
    pub target: Target,
    pub width: usize,
}

/// The bits `low` to `high` of a pin, if it has them.
// That its bits are within 64 is said here: `Pin` is the kit's, and an invariant there would ask more of kits.
fn range(pin: Pin, low: usize, high: usize) -> Option<Pin>
    requires { pin.first + pin.width ≤ 64 }
    ensures { result ≡ range_of pin low high }
{
    if low <= high && high < pin.width {
        Some(Pin {
            side: pin.side,
            first: pin.first + low,
            width: high - low + 1,
        })
    } else {
        None
    }
}

/// The bits of a pin that a subscript means, if it may.
pub(crate) fn slice(pin: Pin, bits: Subscript) -> Option<Pin>
    requires { pin.first + pin.width ≤ 64 }
    ensures { result ≡ slice_of pin bits }
{
    match bits {
        Subscript::All => Some(pin),
        Subscript::Bit(n) => range(pin, n, n),
        Subscript::Range(low, high) => range(pin, low, high),
    }
}

/// A constant, at a part's pin of this side and so many bits.
pub(crate) fn constant_end(side: Side, width: usize, level: bool) -> Option<Far>
    ensures { result ≡ constant_far side width level }
{
    match side {
        Side::In => Some(Far {
            target: Target::Constant(level),
            width,
        }),
        Side::Out => None,
    }
}

/// Bits of a pin of the chip, at a part's pin of this side.
pub(crate) fn chip_end(side: Side, bits: Pin) -> Option<Far>
    ensures { result ≡ chip_far side bits.side bits }
{
    let target = match (side, bits.side) {
        (Side::In, Side::In) => Target::Input(bits.first),
        (Side::Out, Side::Out) => Target::Output(bits.first),
        (Side::In, Side::Out) | (Side::Out, Side::In) => return None,
    };
    Some(Far {
        target,
        width: bits.width,
    })
}

/// An internal pin of so many bits, by its first mention.
pub(crate) fn internal_end(mention: usize, width: usize, bits: Subscript) -> Option<Far>
    ensures { result ≡ internal_far mention width bits }
{
    match bits {
        Subscript::All => Some(Far {
            target: Target::Internal(mention),
            width,
        }),
        Subscript::Bit(_) | Subscript::Range(_, _) => None,
    }
}
