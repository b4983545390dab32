//! What a kit says of a kind's pins and of its size.
ghost use Rattle.std.specs.Prelude.{◌≡◌};

/// A side of a kind: its input bits or its output bits.
#[derive(Clone, Copy, PartialEq, Eq, Debug)]
pub enum Side {
    In,
    Out,
}

/// A pin: `width` bits of one side of a kind, from the bit `first` on.
#[derive(Clone, Copy, PartialEq, Eq, Debug)]
pub struct Pin {
    pub side: Side,
    pub first: usize,
    pub width: usize,
}

// Two names, as `Pin::input(0, 15)` says in fewer words what a side as a parameter would.
impl Pin {
    /// An input pin.
    pub const fn input(first: usize, width: usize) -> Pin
        ensures { result ≡ record { side = Side.In; first = first; width = width } }
    {
        Pin {
            side: Side::In,
            first,
            width,
        }
    }

    /// An output pin.
    pub const fn output(first: usize, width: usize) -> Pin
        ensures { result ≡ record { side = Side.Out; first = first; width = width } }
    {
        Pin {
            side: Side::Out,
            first,
            width,
        }
    }
}

/// How many input and output bits a kind has, and whether it is clocked.
#[derive(Clone, Copy, PartialEq, Eq, Debug)]
pub struct Size {
    pub inputs: usize,
    pub outputs: usize,
    pub clocked: bool,
}

impl Size {
    /// What a kit answers for a number that is none of its kinds.
    pub const NONE: Size = Size {
        inputs: 0,
        outputs: 0,
        clocked: false,
    };
}
