//! The header of a kind, and what it means.
ghost use Rattle.std.specs.Prelude.{◌≡◌, ◌≤◌, position};
ghost use Rattle.std.specs.Str.{bytes_eq};
ghost use Rattle.kit.specs.Headers.{bits, sought, pin_of};
ghost use Rattle.kit.specs.Listings.{listed, header};

use crate::shape::{Pin, Side, Size};

/// A pin's name and width, as in `address[15]`.
#[derive(Clone, Copy)]
pub struct Listed(pub &'static [u8], pub usize);

/// A kind as it is listed: its name, its pins, and whether it is clocked. On each side the pins
/// stand from bit 0 up, in the order given, in at most 64 bits.
#[derive(Clone, Copy)]
pub struct Header {
    pub name: &'static [u8],
    pub ins: &'static [Listed],
    pub outs: &'static [Listed],
    pub clocked: bool,
    ghost few_ins: { bits (listed ins.now) ≤ 64 },
    ghost few_outs: { bits (listed outs.now) ≤ 64 },
}

/// How many bits the pins of a side have.
#[tactic(auto, using(crate::proofs::Widths::bits_sum))]
#[inline(always)]
fn width_of(pins: &[Listed]) -> usize
    requires { bits (listed pins.now) ≤ 64 }
    ensures { result ≡ bits (listed pins.now) }
{
    pins.iter().map(|Listed(_, width)| *width).sum()
}

/// The pin for a name on a side.
#[inline(always)]
fn sought(side: Side, pins: &[Listed], name: &[u8]) -> Option<Pin>
    requires { bits (listed pins.now) ≤ 64 }
    ensures { result ≡ sought side 0 (listed pins.now) name.now }
{
    // One `for`: by `position`, the widths before a pin would be gone over a second time.
    let mut first = 0;
    for Listed(known, width) in pins {
        if text::same(name, known) {
            return Some(Pin {
                side,
                first,
                width: *width,
            });
        }
        first += *width;
    }
    None
}

impl Header {
    /// The place among headers of the first with a name, or none.
    #[inline(always)]
    pub fn find(headers: &[Header], name: &[u8]) -> Option<usize>
        ensures { result ≡ position (λ (h : Header). bytes_eq name.now h.name.now) headers.now }
    {
        headers
            .iter()
            .position(|header| text::same(name, header.name))
    }

    /// The pin for a name: an input, or else an output.
    #[inline(always)]
    pub fn pin(&self, name: &[u8]) -> Option<Pin>
        ensures { result ≡ pin_of (header self.now.ins.now self.now.outs.now) name.now }
    {
        sought(Side::In, self.ins, name).or_else(|| sought(Side::Out, self.outs, name))
    }

    /// How many bits a kind with this header has, and whether it is clocked.
    #[inline(always)]
    pub fn size(&self) -> Size
        ensures inputs { result.inputs ≡ bits (listed self.now.ins.now) }
        ensures outputs { result.outputs ≡ bits (listed self.now.outs.now) }
        ensures clocked { result.clocked ≡ self.now.clocked }
    {
        Size {
            inputs: width_of(self.ins),
            outputs: width_of(self.outs),
            clocked: self.clocked,
        }
    }
}
