//! All records of a bundle are joined, or what is wrong first is told.
ghost use Rattle.std.specs.Prelude.{length, MatchResult};
ghost use Rattle.joiner.specs.Stages.{Complete, LineStage, Soonest, Unjoins};

use crate::join_fault::JoinFault;
use crate::joints::join_parts;
use crate::opens::{open_internal, open_output, open_part, sooner};
use crate::scope::Scope;
use catalogue::{ConnectionRecord, PartRecord};
use fault::Place;
use kit::Kit;

/// Where the first thing that is left open is told, if anything is, when all is joined.
fn open_place<K: Kit>(
    scope: &Scope<'_, K>,
    parts: &[PartRecord],
    connections: &[ConnectionRecord],
) -> Option<Place>
    requires { LineStage (K.Kit.model scope.now.kit.now) scope.now.bundle.bytes.now scope.now.pins.now parts.now connections.now (length parts.now) }
    ensures { Soonest (K.Kit.model scope.now.kit.now) scope.now.bundle.bytes.now scope.now.pins.now parts.now connections.now result }
{
    sooner(
        open_output(scope, connections),
        sooner(
            open_part(scope, parts, connections),
            open_internal(connections),
        ),
    )
}

/// Records that are read are joined.
pub(crate) fn join_records<K: Kit>(
    scope: &Scope<'_, K>,
    parts: &mut [PartRecord],
    connections: &mut [ConnectionRecord],
) -> Result<(), JoinFault>
    requires { LineStage (K.Kit.model scope.now.kit.now) scope.now.bundle.bytes.now scope.now.pins.now parts.old connections.old 0 }
    ensures { MatchResult result
        (λ _. Complete (K.Kit.model scope.now.kit.now) scope.now.bundle.bytes.now scope.now.pins.now parts.new connections.new)
        (λ f. Unjoins (K.Kit.model scope.now.kit.now) scope.now.bundle.bytes.now f) }
{
    join_parts(scope, parts, connections)?;
    match open_place(scope, parts, connections) {
        Some(place) => Err(JoinFault::LeftOpen(place)),
        None => Ok(()),
    }
}
