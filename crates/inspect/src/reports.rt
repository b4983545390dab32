//! What `check` answers.
ghost use Rattle.std.specs.Prelude.{MatchResult};
ghost use Rattle.bundle.specs.Layout.{Layout};
ghost use Rattle.catalogue.specs.Holding.{room};
ghost use Rattle.report.specs.Refusals.{WhenTold};
ghost use Rattle.inspect.specs.Checks.{Joined, Unjoined};

use bundle::Bundle;
use catalogue::{
    CONNECTIONS, Catalogue, ConnectionRecord, Counts, PARTS, PINS, PartRecord, PinRecord, Record,
};
use joiner::join;
use kit::Kit;
use report::{Refusal, refused};
use std::alloc::{AllocError, Global};

/// How many chips the bundle has that the bytes are, and what its catalogue counts. The words are for
/// people, and no contract fixes them.
fn summary(heap: Global, bytes: &[u8], counts: Counts) -> Result<Vec<u8>, AllocError>
    requires { Layout bytes.now }
{
    let chips = Bundle::open(bytes).unwrap().count();
    let line = format!(in heap; "{chips} chips, {counts}: all joined\n")?;
    Ok(line.into_bytes())
}

/// What `check` answers of the bytes, with a kit: that all is joined, or the first fault.
pub fn check<K: Kit>(heap: Global, kit: &K, bytes: &[u8]) -> Result<Vec<u8>, Refusal>
    ensures { MatchResult result
        (λ _. Joined (K.Kit.model kit.now) bytes.now)
        (λ r. WhenTold r (Unjoined (K.Kit.model kit.now) bytes.now room)) }
{
    let mut pins = [PinRecord::BLANK; PINS];
    let mut parts = [PartRecord::BLANK; PARTS];
    let mut connections = [ConnectionRecord::BLANK; CONNECTIONS];
    let mut catalogue = Catalogue::over(&mut pins, &mut parts, &mut connections);
    match join(kit, bytes, &mut catalogue) {
        Ok(counts) => Ok(summary(heap, bytes, counts)?),
        Err(fault) => Err(refused(heap, bytes, fault)),
    }
}
