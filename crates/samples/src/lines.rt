//! A line of input, and a line of output.
ghost use Rattle.std.specs.Prelude.{ℕ, List, map, vec_items, IfOk};
ghost use Rattle.packer.specs.Packed.{Packed};
ghost use Rattle.packer.specs.declared.source.Source.{Source as Packing};
ghost use Rattle.samples.specs.Sources.{Lettered};
ghost use Rattle.samples.specs.Words.{Lists};

use crate::sources::sources_of;
use crate::stop::Stop;
use crate::words::decode;
use fault::Fault;
use packer::pack;
use std::alloc::Global;
use std::io;

/// The texts that a line writes.
fn texts_of(heap: Global, line: &str) -> Result<Vec<Vec<u8>>, Stop>
    ensures { IfOk result (λ v. Lists line.now (map vec_items v.items)) }
{
    let mut texts = Vec::new(heap);
    for word in line.split_whitespace() {
        texts.push(decode(heap, word)?)?;
    }
    Ok(texts)
}

/// The bundle of the texts that a line writes.
pub fn bundle_of(heap: Global, line: &str) -> Result<Vec<u8>, Stop>
    ensures { IfOk result (λ v. (texts : List (List ℕ)) × (sources : List Packing) × Lists line.now texts × Lettered texts sources × Packed sources v.items) }
{
    let texts = texts_of(heap, line)?;
    let sources = sources_of(heap, texts.as_slice())?;
    Ok(pack(heap, sources.as_slice())?)
}

/// Prints the number of a fault and where it stands.
pub fn print_fault(rt: &impl Print, fault: Fault) -> io::Result<()> {
    let Fault { cause, place } = fault;
    let number = cause.number();
    let entry = place.entry;
    let byte = place.byte;
    println!(rt; "fault {number} {entry} {byte}")
}
