//! A text as a word of a line.
ghost use Rattle.std.specs.Prelude.{◌≡◌, ◌<◌, length, IfOk, MatchResult};
ghost use Rattle.samples.specs.Words.{Writes, Written, counted, written};

use crate::stop::Stop;
use std::alloc::{AllocError, Global};

/// What a hex digit counts; any other byte counts 0.
#[tactic(auto, unfolding(crate::specs::Words::counted))]
fn digit(b: u8) -> u8
    ensures counts { result ≡ counted b }
    ensures small { result < 16 }
{
    match b {
        b'0'..=b'9' => b - b'0',
        b'a'..=b'f' => b - b'a' + 10,
        _ => 0,
    }
}

/// The byte that two digits write, the high one first.
fn byte(pair: &[u8]) -> u8
    requires { length pair.now ≡ 2 }
    ensures { result ≡ written pair.now 0 }
{
    digit(pair[0]) * 16 + digit(pair[1])
}

/// The bytes that digits write, two each; an odd last one writes none.
fn bytes_of(heap: Global, digits: &[u8]) -> Result<Vec<u8>, AllocError>
    ensures { IfOk result (λ v. Written digits.now v.items) }
{
    digits.chunks_exact(2).map(|pair| byte(pair)).collect(heap)
}

/// The bytes that the word writes.
// A word is not refused: what a sample says is up to who makes it.
pub fn decode(heap: Global, word: &str) -> Result<Vec<u8>, Stop>
    ensures { MatchResult result (λ v. Writes word.now v.items) (λ e. e ≡ Stop.Memory) }
{
    match word.as_bytes() {
        [_, digits @ ..] => Ok(bytes_of(heap, digits)?),
        [] => Ok(Vec::new(heap)),
    }
}
