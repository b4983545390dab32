//! The bundle, part by part: how many entries, the table of contents, and the texts.
ghost use Rattle.std.specs.Prelude.{◌≡◌, ◌+◌, ◌*◌, ◌≤◌, ◌++◌, length, IfOk, MatchResult, OnOk};
ghost use Rattle.packer.specs.Breaks.{Broken};
ghost use Rattle.packer.specs.Packed.{Packed};
ghost use Rattle.packer.specs.Written.{Writable, number, row_of, rows, texts, written};

use crate::check::{check_sources, head_len};
use crate::faults::PackFault;
use crate::source::{Source, in_order};
use std::alloc::{AllocError, Global};

/// The zeros that fill up a name.
const PADDING: [u8; text::MAX_NAME] = [0; text::MAX_NAME];

/// Writes a number in two bytes, the low byte first.
fn push_number(out: &mut Vec<u8>, n: usize) -> Result<(), AllocError>
    requires { n ≤ 65535 }
    ensures { OnOk result (out.new.items ≡ out.old.items ++ number n) }
{
    out.extend_from_slice(&(n as u16).to_le_bytes())
}

/// Writes the row of a source whose text starts at `start`.
fn push_row(out: &mut Vec<u8>, source: Source<'_>, start: usize) -> Result<(), AllocError>
    requires short { length source.name.now ≤ 32 }
    requires within { start + length source.text.now ≤ 65535 }
    ensures { OnOk result (out.new.items ≡ out.old.items ++ row_of source.entry start) }
{
    out.extend_from_slice(source.name)?;
    out.extend_from_slice(&PADDING[source.name.len()..text::MAX_NAME])?;
    push_number(out, start)?;
    push_number(out, source.text.len())
}

/// Writes the table of contents, behind which the texts start.
#[tactic(auto, using(crate::proofs::Places::source_read, std::proofs::lemmas::Grind::common_steps), unfolding(crate::specs::Written::rows))]
fn push_rows(out: &mut Vec<u8>, sources: &[Source<'_>]) -> Result<(), AllocError>
    requires { Writable sources.now }
    ensures { OnOk result (out.new.items ≡ out.old.items ++ rows sources.now (2 + 36 * length sources.now)) }
{
    let mut start = head_len(sources.len());
    for source in sources {
        push_row(out, *source, start)?;
        start += source.text.len();
    }
    Ok(())
}

/// Writes the texts, one behind the other.
fn push_texts(out: &mut Vec<u8>, sources: &[Source<'_>]) -> Result<(), AllocError>
    ensures { OnOk result (out.new.items ≡ out.old.items ++ texts sources.now) }
{
    for source in sources {
        out.extend_from_slice(source.text)?;
    }
    Ok(())
}

/// The bundle of sources that stand in the order of their names.
fn write(heap: Global, sources: &[Source<'_>]) -> Result<Vec<u8>, AllocError>
    requires { Writable sources.now }
    ensures { IfOk result (λ v. v.items ≡ written sources.now) }
{
    let mut out = Vec::new(heap);
    push_number(&mut out, sources.len())?;
    push_rows(&mut out, sources)?;
    push_texts(&mut out, sources)?;
    Ok(out)
}

/// The bundle of the sources, in the order of their names.
pub fn pack(heap: Global, sources: &[Source<'_>]) -> Result<Vec<u8>, PackFault>
    ensures { MatchResult result (λ v. Packed sources.now v.items) (λ f. Broken sources.now f) }
{
    check_sources(sources)?;
    let sorted = in_order(heap, sources)?;
    Ok(write(heap, &sorted)?)
}
