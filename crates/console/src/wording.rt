//! What the commands say. The words are for people, and no contract fixes them.
use packer::PackFault;
use std::alloc::{AllocError, Global};

/// What the program can do.
pub(crate) const USAGE: &str = "tethersecond: the chip bench

tethersecond pack OUT FILE.hdl ...
    packs chip texts into a bundle; each text goes by its file's name without .hdl
    tethersecond pack adder.bundle Xor.hdl And.hdl HalfAdder.hdl

tethersecond list BUNDLE
    shows what is in a bundle: number, name, start and length of each text
    tethersecond list adder.bundle

tethersecond outline BUNDLE
    shows the pins and parts of each chip, or the first fault with its place
    tethersecond outline adder.bundle

tethersecond check [--rom FILE] BUNDLE
    says whether each part is known, each connection joins what may be joined, and nothing is left
    open, or the first fault with its place; the built-in parts are Nand and DFF, and with --rom also
    ROM, over the 16-bit words of the file, the low byte first
    tethersecond check adder.bundle

tethersecond --help
    shows this page
";

/// Why files were not packed, and what to do.
pub(crate) fn pack_refusal(
    heap: Global,
    fault: PackFault,
    paths: &[String],
) -> Result<String, AllocError> {
    match fault {
        PackFault::TooManyEntries => {
            let count = paths.len();
            format!(in heap; "{count} {fault}")
        }
        PackFault::BadName(i) | PackFault::DuplicateName(i) | PackFault::TooLong(i) => {
            let path = paths.get(i).map_or("", |path| path.as_str());
            format!(in heap; "{path}: {fault}")
        }
        PackFault::NoMemory => fault.to_string(heap),
    }
}
