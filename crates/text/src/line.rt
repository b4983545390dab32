//! Lines of a text.
ghost use Rattle.std.specs.Prelude.{◌≡◌, ℕ, ◌<◌, ◌≤◌, length, ◌≢◌};
ghost use Rattle.text.specs.Names.{byte};

/// How many bytes stand in front of the first newline, or in all where there is none.
pub fn line_len(text: &[u8]) -> usize
    ensures within { result ≤ length text.now }
    ensures inside { (k : ℕ) → k < result → byte text.now k ≢ 10 }
    ensures ends { result < length text.now → byte text.now result ≡ 10 }
{
    text.iter().position(|b| *b == b'\n').unwrap_or(text.len())
}
