//! Reads many small bundles and prints what comes of each: a test of reading on examples.
//!
//! The crate `samples` says what a line of standard input is. `tools/reference.py` makes the lines and
//! the answers that are expected.
#![tactic(auto)]

use catalogue::{
    CONNECTIONS, Catalogue, ConnectionRecord, Counts, PARTS, PINS, PartRecord, PinRecord, Record,
};
use fault::Fault;
use reader::read;
use samples::{Stop, bundle_of, print_fault};
use std::io;

fn print_verdict(rt: &HostRuntime, verdict: Result<Counts, Fault>) -> io::Result<()> {
    match verdict {
        Ok(
            Counts {
                pins,
                parts,
                connections,
            },
        ) => println!(rt; "read {pins} {parts} {connections}"),
        Err(fault) => print_fault(rt, fault),
    }
}

fn main(rt: HostRuntime) -> Result<(), Stop> {
    let heap = rt.alloc();
    let mut pins = vec![in heap; PinRecord::BLANK; PINS]?;
    let mut parts = vec![in heap; PartRecord::BLANK; PARTS]?;
    let mut connections = vec![in heap; ConnectionRecord::BLANK; CONNECTIONS]?;
    let mut catalogue = Catalogue::new(&mut pins, &mut parts, &mut connections);
    for line in rt.lines(heap) {
        let bundle = bundle_of(heap, line?.as_str())?;
        print_verdict(&rt, read(bundle.as_slice(), &mut catalogue))?;
    }
    Ok(())
}
