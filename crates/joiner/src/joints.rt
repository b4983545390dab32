//! Parts and connections are joined one by one, in the order of the texts.
ghost use Rattle.std.specs.Prelude.{◌≡◌, ◌+◌, ◌<◌, length, Decides, MatchResult};
ghost use Rattle.joiner.specs.Stages.{BeginsText, LineStage, TextFrom, TextStart, Unjoins};

use crate::join_fault::JoinFault;
use crate::scope::Scope;
use crate::turn::Turn;
use catalogue::{ConnectionRecord, PartRecord};
use kit::Kit;

/// The part `p` and its connections are joined. No connection before `from` is of its text.
// Scope, parts and connections are no struct: of two `&mut` it would need a clause more for whose memory
// each is, at every call. An index, as
// each record changes while all of its slice is read.
fn join_part<K: Kit>(
    scope: &Scope<'_, K>,
    from: usize,
    p: usize,
    parts: &mut [PartRecord],
    connections: &mut [ConnectionRecord],
) -> Result<(), JoinFault>
    requires within { p < length parts.old }
    requires stage { LineStage (K.Kit.model scope.now.kit.now) scope.now.bundle.bytes.now scope.now.pins.now parts.old connections.old p }
    requires others { TextFrom scope.now.bundle.bytes.now from p }
    ensures { MatchResult result
        (λ _. LineStage (K.Kit.model scope.now.kit.now) scope.now.bundle.bytes.now scope.now.pins.now parts.new connections.new (p + 1))
        (λ f. Unjoins (K.Kit.model scope.now.kit.now) scope.now.bundle.bytes.now f) }
{
    let part = parts[p];
    let Some(piece) = scope.piece(scope.word(part.entry, part.name)) else {
        return Err(JoinFault::UnknownPart(part.name.place(part.entry)));
    };
    parts[p].piece = piece;
    for i in part.connections..part.connections + part.count {
        let turn = Turn {
            scope,
            parts,
            connections,
            from,
            i,
        };
        connections[i] = turn.join()?;
    }
    Ok(())
}

/// Whether the part `p` is the first of its text.
fn begins_text(parts: &[PartRecord], p: usize) -> bool
    requires { p < length parts.now }
    ensures { Decides result (BeginsText parts.now p) }
{
    p == 0 || parts[p - 1].entry != parts[p].entry
}

/// The first connection of the part `p`'s text, where `from` is that of the part before.
fn text_start(parts: &[PartRecord], from: usize, p: usize) -> usize
    requires { p < length parts.now }
    ensures { TextStart parts.now from p result }
{
    if begins_text(parts, p) {
        parts[p].connections
    } else {
        from
    }
}

/// All parts and connections are joined.
// An index, as a part changes while all parts are read.
pub(crate) fn join_parts<K: Kit>(
    scope: &Scope<'_, K>,
    parts: &mut [PartRecord],
    connections: &mut [ConnectionRecord],
) -> Result<(), JoinFault>
    requires { LineStage (K.Kit.model scope.now.kit.now) scope.now.bundle.bytes.now scope.now.pins.now parts.old connections.old 0 }
    ensures { MatchResult result
        (λ _. LineStage (K.Kit.model scope.now.kit.now) scope.now.bundle.bytes.now scope.now.pins.now parts.new connections.new (length parts.new))
        (λ f. Unjoins (K.Kit.model scope.now.kit.now) scope.now.bundle.bytes.now f) }
{
    let mut from = 0;
    for p in 0..parts.len() {
        from = text_start(parts, from, p);
        join_part(scope, from, p, parts, connections)?;
    }
    Ok(())
}
