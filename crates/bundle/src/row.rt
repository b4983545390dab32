//! A row of the table of contents.
ghost use Rattle.std.specs.Prelude.{◌≡◌, ℕ, ◌+◌, ◌<◌, ◌≤◌, length, Decides};
ghost use Rattle.text.specs.Names.{byte};
ghost use Rattle.bundle.specs.Layout.{NameStands, Rises, name, number_at, row, size, start, unpadded};

use std::cmp::Ordering;

/// The bytes of a row.
pub const ROW: usize = 36;

/// The two bytes at `i` as a number, the low byte first.
pub fn number_at(bytes: &[u8], i: usize) -> usize
    requires { i + 2 ≤ length bytes.now }
    ensures value { result ≡ number_at bytes.now i }
    ensures small { result < 65536 }
{
    usize::from(u16::from_le_bytes([bytes[i], bytes[i + 1]]))
}

/// The bytes in front of the first zero.
fn unpadded(field: &[u8]) -> &[u8]
    ensures { result.now ≡ unpadded field.now }
{
    let len = field.iter().position(|b| *b == 0).unwrap_or(field.len());
    &field[..len]
}

/// Whether each byte is zero.
fn is_zeros(bytes: &[u8]) -> bool
    ensures { Decides result ((j : ℕ) → j < length bytes.now → byte bytes.now j ≡ 0) }
{
    bytes.iter().all(|b| *b == 0)
}

/// The row of the entry `k`.
#[derive(Clone, Copy)]
pub struct Row<'a> {
    pub bytes: &'a [u8],
    pub k: usize,
    ghost whole: { row (k + 1) ≤ length bytes.now },
}

impl<'a> Row<'a> {
    /// Where the row begins.
    fn place(&self) -> usize
        ensures { result ≡ row self.now.k }
    {
        2 + ROW * self.k
    }

    /// The name, without the zeros behind it.
    pub fn name(&self) -> &'a [u8]
        ensures { result.now ≡ name self.now.bytes.now self.now.k }
    {
        let place = self.place();
        unpadded(&self.bytes[place..place + text::MAX_NAME])
    }

    /// Where the text starts.
    pub fn start(&self) -> usize
        ensures value { result ≡ start self.now.bytes.now self.now.k }
        ensures small { result < 65536 }
    {
        number_at(self.bytes, self.place() + 32)
    }

    /// Where the text ends.
    pub fn end(&self) -> usize
        ensures { result ≡ start self.now.bytes.now self.now.k + size self.now.bytes.now self.now.k }
    {
        self.start() + number_at(self.bytes, self.place() + 34)
    }

    /// Whether there is a name, padded with zeros.
    pub fn name_stands(&self) -> bool
        ensures { Decides result (NameStands self.now.bytes.now self.now.k) }
    {
        let place = self.place();
        let name = self.name();
        text::is_name(name) && is_zeros(&self.bytes[place + name.len()..place + text::MAX_NAME])
    }

    /// Whether the name comes after the one before it, if there is one.
    pub fn rises(&self) -> bool
        ensures { Decides result (Rises self.now.bytes.now self.now.k) }
    {
        if self.k == 0 {
            return true;
        }
        let before = Row {
            bytes: self.bytes,
            k: self.k - 1,
        };
        text::compare(before.name(), self.name()) == Ordering::Less
    }
}
