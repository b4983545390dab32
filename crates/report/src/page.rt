//! A page: text for a person, written from top to bottom, in columns where it is a table.
ghost use Rattle.std.specs.Prelude.{◌≡◌, ◌-◌, [], ◌++◌, length, replicate, decimal, IfSome, OnOk};
ghost use Rattle.report.specs.Columns.{left, right};

use std::alloc::{AllocError, Global};
use std::fmt::Display;
use std::iter;

/// Bytes, since the names and lines of texts that a page cites are any bytes.
#[derive(Drop)]
pub struct Page {
    bytes: Vec<u8>,
}

impl Page {
    /// An empty page.
    pub fn new(heap: Global) -> Page
        ensures { result.bytes.items ≡ [] }
    {
        Page {
            bytes: Vec::new(heap),
        }
    }

    /// Appends bytes.
    pub fn put(&mut self, bytes: &[u8]) -> Result<(), AllocError>
        ensures { OnOk result (self.new.bytes.items ≡ self.old.bytes.items ++ bytes.now) }
    {
        self.bytes.extend_from_slice(bytes)
    }

    /// Appends what `write!` is given.
    pub fn write_fmt<D: Display + Drop>(&mut self, text: D) -> Result<(), AllocError>
        ensures { OnOk result (IfSome (D.output text) (λ bs. self.new.bytes.items ≡ self.old.bytes.items ++ bs)) }
    {
        let text = String::format(*self.bytes.allocator(), text)?;
        self.put(text.as_bytes())
    }

    /// Appends so many spaces.
    fn put_spaces(&mut self, count: usize) -> Result<(), AllocError>
        ensures { OnOk result (self.new.bytes.items ≡ self.old.bytes.items ++ replicate count 32) }
    {
        self.bytes.extend(iter::repeat_n(b' ', count))
    }

    /// Appends the text, filled up with spaces to the width.
    pub fn put_left(&mut self, text: &[u8], width: usize) -> Result<(), AllocError>
        ensures { OnOk result (self.new.bytes.items ≡ self.old.bytes.items ++ left width text.now) }
    {
        self.put(text)?;
        self.put_spaces(width.saturating_sub(text.len()))
    }

    /// Appends the number, with spaces in front of it up to the width.
    pub fn put_right(&mut self, number: usize, width: usize) -> Result<(), AllocError>
        ensures { OnOk result (self.new.bytes.items ≡ self.old.bytes.items ++ right width (decimal number)) }
    {
        let digits = format!(in *self.bytes.allocator(); "{number}")?;
        self.put_spaces(width.saturating_sub(digits.len()))?;
        self.put(digits.as_bytes())
    }

    /// All that was written.
    pub fn into_bytes(self) -> Vec<u8>
        ensures { result ≡ self.bytes }
    {
        self.bytes
    }
}
