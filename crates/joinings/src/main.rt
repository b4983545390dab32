//! Reads and joins many small bundles and prints what comes of each: a test on examples. The kit has
//! the atoms and a ROM.
//!
//! The crate `samples` says what a line of standard input is. `tools/reference.py` makes the lines and
//! the answers that are expected.
#![tactic(auto)]

use catalogue::{
    CONNECTIONS, Catalogue, ConnectionRecord, Counts, PARTS, PINS, PartRecord, PinRecord, Record,
};
use fault::Fault;
use joiner::join;
use kit::{Atoms, Pair, Rom};
use reader::read;
use samples::{Stop, bundle_of, print_fault};
use std::io;

/// What reading and what joining a bundle say.
#[derive(Drop)]
struct Verdicts {
    read: Result<Counts, Fault>,
    joined: Result<Counts, Fault>,
}

fn judge(bundle: &[u8], catalogue: &mut Catalogue<'_>) -> Verdicts {
    let words = [0];
    let kit = Pair::new(Atoms, Rom::new(&words));
    Verdicts {
        read: read(bundle, catalogue),
        joined: join(&kit, bundle, catalogue),
    }
}

fn print_verdicts(rt: &HostRuntime, verdicts: Verdicts) -> io::Result<()> {
    match verdicts.read {
        Ok(
            Counts {
                pins,
                parts,
                connections,
            },
        ) => print!(rt; "read {pins} {parts} {connections}; ")?,
        Err(fault) => return print_fault(rt, fault),
    }
    match verdicts.joined {
        Ok(_) => println!(rt; "joined"),
        Err(fault) => print_fault(rt, fault),
    }
}

// The loop is that of `readings`: it is too short to be worth a closure for what is done with a bundle.
fn main(rt: HostRuntime) -> Result<(), Stop> {
    let heap = rt.alloc();
    let mut pins = vec![in heap; PinRecord::BLANK; PINS]?;
    let mut parts = vec![in heap; PartRecord::BLANK; PARTS]?;
    let mut connections = vec![in heap; ConnectionRecord::BLANK; CONNECTIONS]?;
    let mut catalogue = Catalogue::new(&mut pins, &mut parts, &mut connections);
    for line in rt.lines(heap) {
        let bundle = bundle_of(heap, line?.as_str())?;
        print_verdicts(&rt, judge(bundle.as_slice(), &mut catalogue))?;
    }
    Ok(())
}
