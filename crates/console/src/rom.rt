//! The words of a ROM.
ghost use Rattle.std.specs.Prelude.{◌≡◌, ℕ, ◌+◌, ◌*◌, ◌/◌, ◌<◌, length, IfOk, vec_len, slice_index};

use std::alloc::{AllocError, Global};

/// The longest file: as many words as a ROM has addresses.
pub(crate) const MAX_BYTES: usize = 65_536;

/// The words that the bytes are, two bytes each and the low one first. An odd last byte is left.
pub(crate) fn words_of(heap: Global, bytes: &[u8]) -> Result<Vec<u16>, AllocError>
    ensures { IfOk result (λ v. (vec_len v ≡ length bytes.now / 2) × ((k : ℕ) → k < vec_len v → slice_index v.items k ≡ slice_index bytes.now (2 * k) + 256 * slice_index bytes.now (2 * k + 1))) }
{
    bytes
        .chunks_exact(2)
        .map(|word| u16::from_le_bytes([word[0], word[1]]))
        .collect(heap)
}
