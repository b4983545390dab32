//! The rules that the sources of a bundle keep, one after another.
ghost use Rattle.std.specs.Prelude.{◌≡◌, ◌+◌, ◌*◌, ◌<◌, ◌≤◌, length, MatchBool, MatchResult};
ghost use Rattle.packer.specs.Rules.{Keeps, New, Sound, Taken, size_upto};
ghost use Rattle.packer.specs.Breaks.{Broken, Upto};

use crate::faults::PackFault;
use crate::source::Source;
use bundle::{MAX_BYTES, MAX_ENTRIES, ROW};

/// How many bytes stand before the texts: the number of entries, and 36 bytes for each of them.
pub fn head_len(count: usize) -> usize
    requires { count ≤ 128 }
    ensures { result ≡ 2 + 36 * count }
{
    2 + ROW * count
}

/// Whether no source before the source `i` has its name.
fn is_new(sources: &[Source<'_>], i: usize) -> bool
    requires { i < length sources.now }
    ensures { MatchBool result (New sources.now i) (Taken sources.now i) }
{
    let name = sources[i].name;
    sources[..i]
        .iter()
        .all(|source| !text::same(source.name, name))
}

/// Checks the source `i`, before whose text the bundle has `size` bytes, and answers how many it
/// has with it.
fn check_source(sources: &[Source<'_>], i: usize, size: usize) -> Result<usize, PackFault>
    requires upto { Upto sources.now i }
    requires size { size ≡ size_upto sources.now i }
    requires small { size ≤ 65535 }
    ensures { MatchResult result
        (λ n. Keeps sources.now i × (n ≡ size_upto sources.now (i + 1)))
        (λ f. Broken sources.now f) }
{
    let source = sources[i];
    if !text::is_name(source.name) {
        return Err(PackFault::BadName(i));
    }
    if !is_new(sources, i) {
        return Err(PackFault::DuplicateName(i));
    }
    if source.text.len() > MAX_BYTES - size {
        return Err(PackFault::TooLong(i));
    }
    Ok(size + source.text.len())
}

/// Checks the sources in the order given.
pub fn check_sources(sources: &[Source<'_>]) -> Result<(), PackFault>
    ensures { MatchResult result (λ _. Sound sources.now) (λ f. Broken sources.now f) }
{
    if sources.len() > MAX_ENTRIES {
        return Err(PackFault::TooManyEntries);
    }
    let mut size = head_len(sources.len());
    // By number: the check of a source reads those before it too, and its fault tells the number.
    for i in 0..sources.len() {
        size = check_source(sources, i, size)?;
    }
    Ok(())
}
