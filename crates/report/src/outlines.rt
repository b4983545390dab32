//! What `outline` answers.
ghost use Rattle.std.specs.Prelude.{MatchResult};
ghost use Rattle.catalogue.specs.Holding.{room};
ghost use Rattle.report.specs.Outlines.{Read, Unread};
ghost use Rattle.report.specs.Refusals.{WhenTold};

use crate::chips::outline_text;
use crate::refusals::{Refusal, refused};
use catalogue::{
    CONNECTIONS, Catalogue, ConnectionRecord, PARTS, PINS, PartRecord, PinRecord, Record,
};
use reader::read;
use std::alloc::Global;

/// What `outline` answers of the bytes: the outline of each chip, or the first fault.
pub fn outline(heap: Global, bytes: &[u8]) -> Result<Vec<u8>, Refusal>
    ensures { MatchResult result
        (λ _. Read bytes.now)
        (λ r. WhenTold r (Unread bytes.now room)) }
{
    let mut pins = [PinRecord::BLANK; PINS];
    let mut parts = [PartRecord::BLANK; PARTS];
    let mut connections = [ConnectionRecord::BLANK; CONNECTIONS];
    let mut catalogue = Catalogue::over(&mut pins, &mut parts, &mut connections);
    match read(bytes, &mut catalogue) {
        Ok(_) => Ok(outline_text(heap, bytes, &catalogue)?),
        Err(fault) => Err(refused(heap, bytes, fault)),
    }
}
