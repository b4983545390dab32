//! Where a byte of a text stands, for a person: line, column, and the line itself.
ghost use Rattle.std.specs.Prelude.{◌≡◌, ◌≢◌, ◌==◌, ◌⊎◌, ℕ, suc, ◌<◌, ◌≤◌, min, length, count_by};
ghost use Rattle.text.specs.Names.{byte as byte_at};
ghost use Rattle.report.specs.Lines.{LineOf};

use text::line_len;

/// A line of a text, and a place in it. Lines and columns count from 1.
#[derive(Clone, Copy)]
pub struct Spot {
    pub line: usize,
    pub column: usize,
    /// The line is `text[start..end]`.
    pub start: usize,
    pub end: usize,
}

/// How many newlines there are.
fn newlines(text: &[u8]) -> usize
    ensures { result ≡ count_by (λ b. b == 10) text.now }
{
    text.iter().filter(|b| **b == b'\n').count()
}

/// Where the last line begins.
fn last_line(text: &[u8]) -> usize
    ensures within { result ≤ length text.now }
    ensures begins { (result ≡ 0) ⊎ ((k : ℕ) × (suc k ≡ result) × (byte_at text.now k ≡ 10)) }
    ensures before { (k : ℕ) → result ≤ k → k < length text.now → byte_at text.now k ≢ 10 }
{
    text.iter().rposition(|b| *b == b'\n').map_or(0, |i| i + 1)
}

/// Where the byte stands; a byte past the text's end is taken for the end.
pub fn locate(text: &[u8], byte: usize) -> Spot
    ensures { LineOf text.now (min byte (length text.now)) result.line result.column result.start result.end }
{
    let at = byte.min(text.len());
    let (before, behind) = text.split_at(at);
    let start = last_line(before);
    Spot {
        line: newlines(before) + 1,
        column: at - start + 1,
        start,
        end: at + line_len(behind),
    }
}
