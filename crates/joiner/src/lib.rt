//! Joining: the texts of a bundle are read, and the names in their records are looked up in the
//! bundle and in a kit of built-in parts, or the first fault is told.
#![tactic(auto)]

ghost use Rattle.std.specs.Prelude.{◌≡◌, MatchResult};
ghost use Rattle.catalogue.specs.Records.{none};
ghost use Rattle.catalogue.specs.Holding.{Fills, Lent, Long, counted, slices};
ghost use Rattle.joiner.specs.Verdicts.{Accepted, Refused};
ghost use Rattle.joiner.specs.Lent.{JoinedInto, ReadInto, Unjoined};

use crate::records::join_records;
use crate::scope::Scope;
use bundle::Bundle;
use catalogue::{Catalogue, ConnectionRecord, Counts, PartRecord, PinRecord, Table};
use fault::Fault;
use kit::Kit;
use reader::read;

mod ends;
mod feeds;
mod join_fault;
mod joints;
mod opens;
mod records;
mod scope;
mod single;
mod turn;

pub use join_fault::JoinFault;
pub use single::verdicts_are_one;

/// Joins the records of a bundle that were read into lent memory, so many.
// The catalogue comes taken apart: the scope keeps the pins while parts and connections change.
fn join_rows<'a, K: Kit>(
    kit: &'a K,
    bytes: &'a [u8],
    counts: Counts,
    pins: &'a Table<'_, PinRecord>,
    parts: &mut [PartRecord],
    connections: &mut [ConnectionRecord],
) -> Result<(), Fault>
    requires pins { pins.now.used ≡ counts.pins }
    requires read { ReadInto bytes.now (record { pins = pins.now.rows.now; parts = parts.old; connections = connections.old }) counts }
    ensures { MatchResult result
        (λ _. JoinedInto (K.Kit.model kit.now) bytes.now (record { pins = pins.now.rows.now; parts = parts.new; connections = connections.new }) counts)
        (λ f. Unjoined (K.Kit.model kit.now) bytes.now f) }
{
    let scope = Scope {
        kit,
        bundle: Bundle::open(bytes)?,
        pins: pins.as_slice(),
    };
    let parts = &mut parts[..counts.parts];
    let connections = &mut connections[..counts.connections];
    join_records(&scope, parts, connections)?;
    Ok(())
}

/// Joins the records of a bundle that were read into a catalogue.
fn join_read<K: Kit>(kit: &K, bytes: &[u8], catalogue: &mut Catalogue<'_>) -> Result<(), Fault>
    requires { ReadInto bytes.now (slices catalogue.old) (counted catalogue.old) }
    ensures lent { Lent catalogue.old catalogue.new }
    ensures long { Long catalogue.old catalogue.new }
    ensures counted { counted catalogue.new ≡ counted catalogue.old }
    ensures joins { MatchResult result
        (λ _. JoinedInto (K.Kit.model kit.now) bytes.now (slices catalogue.new) (counted catalogue.new))
        (λ f. Unjoined (K.Kit.model kit.now) bytes.now f) }
{
    let counts = catalogue.counts();
    let Catalogue {
        pins,
        parts,
        connections,
    } = catalogue;
    join_rows(kit, bytes, counts, pins, parts.rows, connections.rows)
}

/// Reads and joins all texts of a bundle, with a kit, into a catalogue, in place of what it has. A
/// refusal leaves it blank.
pub fn join<K: Kit>(kit: &K, bytes: &[u8], catalogue: &mut Catalogue<'_>) -> Result<Counts, Fault>
    ensures lent { Lent catalogue.old catalogue.new }
    ensures long { Long catalogue.old catalogue.new }
    ensures verdict { MatchResult result
        (λ n. Accepted (K.Kit.model kit.now) bytes.now (slices catalogue.old) (slices catalogue.new) n)
        (λ f. Refused (K.Kit.model kit.now) bytes.now (slices catalogue.old) (slices catalogue.new) f) }
    ensures counted { MatchResult result (λ n. n ≡ counted catalogue.new) (λ _. Fills catalogue.new none) }
{
    let counts = read(bytes, catalogue)?;
    match join_read(kit, bytes, catalogue) {
        Ok(()) => Ok(counts),
        Err(fault) => {
            catalogue.clear();
            Err(fault)
        }
    }
}
