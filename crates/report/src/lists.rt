//! What `list` answers.
ghost use Rattle.std.specs.Prelude.{◌≡◌, MatchResult};
ghost use Rattle.bundle.specs.Layout.{Layout};
ghost use Rattle.report.specs.Columns.{listing as listed};
ghost use Rattle.report.specs.Refusals.{WhenTold};

use crate::listing::listing;
use crate::refusals::{Refusal, refused};
use bundle::Bundle;
use std::alloc::Global;

/// What `list` answers of the bytes: the table of a bundle, or its fault.
// Here and below, allocator and bytes are no struct: whatever allocates takes the allocator first.
pub fn list(heap: Global, bytes: &[u8]) -> Result<Vec<u8>, Refusal>
    ensures { MatchResult result
        (λ v. Layout bytes.now × (v.items ≡ listed bytes.now))
        (λ r. WhenTold r (Layout bytes.now → ⊥)) }
{
    match Bundle::open(bytes) {
        Ok(bundle) => Ok(listing(heap, &bundle, bytes.len())?),
        Err(fault) => Err(refused(heap, bytes, fault)),
    }
}
