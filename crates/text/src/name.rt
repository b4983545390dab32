//! Names: what is one, and how two of them compare.
ghost use Rattle.std.specs.Prelude.{◌≡◌, ◌≤◌, true, Decides};
ghost use Rattle.std.specs.Str.{bytes_eq};
ghost use Rattle.text.specs.Names.{Named, Word};
ghost use Rattle.text.specs.Orders.{order};

use crate::keyword::Keyword;
use std::cmp::Ordering;

/// The longest name, in bytes.
pub const MAX_NAME: usize = 32;

/// Whether each byte is a letter or a digit.
fn is_word(bytes: &[u8]) -> bool
    ensures { Decides result (Word bytes.now) }
{
    bytes.iter().all(|b| b.is_ascii_alphanumeric())
}

/// Whether the bytes are a name: a letter and then letters or digits, at most 32 in all, and no
/// reserved word.
pub fn is_name(bytes: &[u8]) -> bool
    ensures { Decides result (Named bytes.now) }
{
    bytes.first().is_some_and(|b| b.is_ascii_alphabetic())
        && bytes.len() <= MAX_NAME
        && is_word(bytes)
        && Keyword::of(bytes).is_none()
}

/// How two names compare: byte by byte, and a name that the other goes on from comes first.
pub fn compare(a: &[u8], b: &[u8]) -> Ordering
    ensures { result ≡ order a.now b.now }
{
    a.cmp(b)
}

/// Whether two names end alike: most that differ do so in their lengths or their last bytes.
fn ends_alike(a: &[u8], b: &[u8]) -> bool
    ensures { a.now ≡ b.now → result ≡ true }
{
    a.len() == b.len() && a.last() == b.last()
}

/// Whether two names are the same.
#[tactic(auto, using(crate::proofs::Comparing::same_order, crate::proofs::Comparing::order_same))]
#[inline(always)]
pub fn same(a: &[u8], b: &[u8]) -> bool
    ensures same { Decides result (a.now ≡ b.now) }
    ensures value { result ≡ bytes_eq a.now b.now }
{
    ends_alike(a, b) && compare(a, b) == Ordering::Equal
}
