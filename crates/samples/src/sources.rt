//! The texts of a line as sources of a bundle.
ghost use Rattle.std.specs.Prelude.{map, vec_items, IfOk};
ghost use Rattle.samples.specs.Sources.{Lettered};

use packer::Source;
use std::alloc::{AllocError, Global};
use std::slice;

/// The names that texts go by.
const NAMES: &[u8; 26] = b"ABCDEFGHIJKLMNOPQRSTUVWXYZ";

/// The texts under the names A, B, C and so on; a text behind the 26th has none and is left out.
pub fn sources_of<'a>(heap: Global, texts: &'a [Vec<u8>]) -> Result<Vec<Source<'a>>, AllocError>
    ensures { IfOk result (λ v. Lettered (map vec_items texts.now) v.items) }
{
    NAMES
        .iter()
        .zip(texts)
        .map(|(name, text)| Source {
            name: slice::from_ref(name),
            text: text.as_slice(),
        })
        .collect(heap)
}
