//! Texts that are joined, and what the records then hold; faults of joining as a person sees them.
use catalogue::{
    CONNECTIONS, Catalogue, ConnectionRecord, Counts, Joint, PARTS, PINS, PartRecord, Piece,
    PinRecord, Record, Target,
};
use fault::Fault;
use inspect::check;
use joiner::join;
use kit::{Atoms, Kit, Pair, Pin, Rom};
use packer::{Source, pack};
use report::Refusal;
use samplekit::Sample;
use std::process::Abort;
use std::test::*;

/// Records of a bundle.
#[derive(Drop)]
struct Records {
    parts: Vec<PartRecord>,
    connections: Vec<ConnectionRecord>,
    verdict: Result<Counts, Fault>,
}

/// The bundle of texts that are named.
fn bundle_of(rt: &impl AllocGlobal, sources: &[Source<'_>]) -> Result<Vec<u8>, Fail> {
    pack(rt.alloc(), sources).map_err(|_| Fail::new("the texts were not packed"))
}

/// What joining makes of a bundle's records.
fn joined<K: Kit>(rt: &impl AllocGlobal, kit: &K, sources: &[Source<'_>]) -> Result<Records, Fail> {
    let heap = rt.alloc();
    let bytes = bundle_of(rt, sources)?;
    let mut pins = vec![in heap; PinRecord::BLANK; PINS]?;
    let mut parts = vec![in heap; PartRecord::BLANK; PARTS]?;
    let mut connections = vec![in heap; ConnectionRecord::BLANK; CONNECTIONS]?;
    let mut catalogue = Catalogue::new(
        pins.as_mut_slice(),
        parts.as_mut_slice(),
        connections.as_mut_slice(),
    );
    let verdict = join(kit, bytes.as_slice(), &mut catalogue);
    Ok(Records {
        parts,
        connections,
        verdict,
    })
}

/// A text of the chip W.
fn named(text: &'static [u8]) -> Source<'static> {
    Source { name: b"W", text }
}

/// That a bundle is joined.
fn accepted<K: Kit>(
    rt: &(impl Abort + AllocGlobal),
    kit: &K,
    sources: &[Source<'_>],
) -> Result<(), Fail> {
    assert!(rt; joined(rt, kit, sources)?.verdict.is_ok());
    Ok(())
}

/// That a bundle has this fault.
fn refused<K: Kit>(
    rt: &(impl Abort + AllocGlobal),
    kit: &K,
    sources: &[Source<'_>],
    number: u8,
    entry: usize,
    byte: usize,
) -> Result<(), Fail> {
    match joined(rt, kit, sources)?.verdict {
        Ok(_) => Err(Fail::new("the texts were joined")),
        Err(fault) => {
            assert_eq!(rt; fault.cause.number(), number);
            assert_eq!(rt; fault.place.entry, entry);
            assert_eq!(rt; fault.place.byte, byte);
            Ok(())
        }
    }
}

/// What the part and the connections of these numbers are resolved to.
fn resolved(
    rt: &impl Abort,
    records: &Records,
    part: usize,
    piece: Piece,
    joints: &[Joint],
) -> Result<(), Fail> {
    assert!(rt; part < records.parts.len());
    let line = records.parts[part];
    assert_eq!(rt; line.piece, piece);
    assert_eq!(rt; line.count, joints.len());
    let own = records.connections.iter().skip(line.connections);
    assert!(rt; own.len() >= joints.len());
    for (connection, joint) in own.zip(joints) {
        assert_eq!(rt; connection.joint, *joint);
    }
    Ok(())
}

#[test]
fn resolved_fields(rt: HostRuntime) -> Result<(), Fail> {
    let inner = Source {
        name: b"Inner",
        text: b"CHIP Inner { IN a, w[4]; OUT x[2], y; PARTS: Nand(a=a, b=w[3], out=x[1]); Nand(a=w[0], b=true, out=y); DFF(in=false, out=x[0]); }",
    };
    let top = Source {
        name: b"Top",
        text: b"CHIP Top { IN i[4]; OUT o; PARTS: Inner(a=p, w[1..3]=i[0..2], w[0]=i[3], x=q, y=p); Nand(a=p, b=p, out=o); }",
    };
    let records = joined(&rt, &Atoms, &[inner, top])?;
    assert!(rt; records.verdict.is_ok());
    let nand = Piece::Kind(0);
    resolved(
        &rt,
        &records,
        0,
        nand,
        &[
            Joint::of(Pin::input(0, 1), Target::Input(0)),
            Joint::of(Pin::input(1, 1), Target::Input(4)),
            Joint::of(Pin::output(0, 1), Target::Output(1)),
        ],
    )?;
    resolved(
        &rt,
        &records,
        1,
        nand,
        &[
            Joint::of(Pin::input(0, 1), Target::Input(1)),
            Joint::of(Pin::input(1, 1), Target::Constant(true)),
            Joint::of(Pin::output(0, 1), Target::Output(2)),
        ],
    )?;
    resolved(
        &rt,
        &records,
        2,
        Piece::Kind(1),
        &[
            Joint::of(Pin::input(0, 1), Target::Constant(false)),
            Joint::of(Pin::output(0, 1), Target::Output(0)),
        ],
    )?;
    resolved(
        &rt,
        &records,
        3,
        Piece::Entry(0),
        &[
            Joint::of(Pin::input(0, 1), Target::Internal(8)),
            Joint::of(Pin::input(2, 3), Target::Input(0)),
            Joint::of(Pin::input(1, 1), Target::Input(3)),
            Joint::of(Pin::output(0, 2), Target::Internal(11)),
            Joint::of(Pin::output(2, 1), Target::Internal(8)),
        ],
    )?;
    resolved(
        &rt,
        &records,
        4,
        nand,
        &[
            Joint::of(Pin::input(0, 1), Target::Internal(8)),
            Joint::of(Pin::input(1, 1), Target::Internal(8)),
            Joint::of(Pin::output(0, 1), Target::Output(0)),
        ],
    )
}

#[test]
fn bundle_before_kit(rt: HostRuntime) -> Result<(), Fail> {
    let nand = Source {
        name: b"Nand",
        text: b"CHIP Nand { IN x; OUT y; PARTS: DFF(in=x, out=y); }",
    };
    let own = Source {
        name: b"Use",
        text: b"CHIP Use { IN a; OUT o; PARTS: Nand(x=a, y=o); }",
    };
    let built_in = Source {
        name: b"Use",
        text: b"CHIP Use { IN a; OUT o; PARTS: Nand(a=a, b=a, out=o); }",
    };
    accepted(&rt, &Atoms, &[nand, own])?;
    refused(&rt, &Atoms, &[nand, built_in], 9, 1, 36)?;
    accepted(&rt, &Atoms, &[built_in])?;
    refused(&rt, &Atoms, &[own], 9, 0, 36)
}

#[test]
fn refused_is_blank(rt: HostRuntime) -> Result<(), Fail> {
    let text = b"CHIP A { IN a; OUT o; PARTS: Nand(a=a, b=a, out=o, out=o); }";
    let records = joined(&rt, &Atoms, &[Source { name: b"A", text }])?;
    assert!(rt; records.verdict.is_err());
    assert!(rt; records.parts.len() >= 4 && records.connections.len() >= 4);
    for (part, connection) in records.parts.iter().zip(&records.connections).take(4) {
        assert_eq!(rt; part.name.len, 0);
        assert_eq!(rt; connection.name.len, 0);
    }
    Ok(())
}

#[test]
fn said_with_the_line(rt: HostRuntime) -> Result<(), Fail> {
    let text = b"CHIP A {\n  IN a[2];\n  OUT o;\n  PARTS:\n  Nand(a=a, b=a[0], out=o);\n}\n";
    let bytes = bundle_of(&rt, &[Source { name: b"A", text }])?;
    let Err(Refusal::Told(told)) = check(rt.alloc(), &Atoms, bytes.as_slice()) else {
        return Err(Fail::new("the text was joined"));
    };
    assert!(rt;
        told.as_slice()
            == b"fault 11 (joining) in A at byte 45, line 5, column 8: the two ends differ in width: join as many bits on both sides\n  Nand(a=a, b=a[0], out=o);\n       ^\n".as_slice()
    );
    Ok(())
}

#[test]
fn said_when_joined(rt: HostRuntime) -> Result<(), Fail> {
    let text = b"CHIP R { IN a[15]; OUT o[16]; PARTS: ROM(address=a, out=o); }";
    let bytes = bundle_of(&rt, &[Source { name: b"R", text }])?;
    let words = [1, 2, 3];
    let kit = Pair::new(Atoms, Rom::new(&words));
    let Ok(text) = check(rt.alloc(), &kit, bytes.as_slice()) else {
        return Err(Fail::new("the text was not joined"));
    };
    assert!(rt;
        text.as_slice() == b"1 chips, 2 pins, 1 parts, 2 connections: all joined\n".as_slice()
    );
    Ok(())
}

/// A chip of parts from three kits: a ROM, a Nand, an adder, a register and a counter.
const MIXED: Source<'static> = Source {
    name: b"Mixed",
    text: b"CHIP Mixed { IN a[15], load; OUT s[4], c, low[8], high[8], n[4]; PARTS: ROM(address=a, out[0..3]=p, out[4..7]=q, out=w); Add4(a=p, b=q, sum=s, carry=c); Split(in=w, low=x, high=high); Reg8(in=x, load=load, out=low); Nand(a=load, b=true, out=r); Count4(reset=r, out=n); }",
};

/// That a kit has the parts of the mixed chip, under these numbers.
fn mixed_is_joined<K: Kit>(
    rt: &(impl Abort + AllocGlobal),
    kit: &K,
    kinds: [usize; 6],
) -> Result<(), Fail> {
    let records = joined(rt, kit, &[MIXED])?;
    assert!(rt; records.verdict.is_ok());
    assert!(rt; records.parts.len() >= kinds.len());
    for (part, kind) in records.parts.iter().zip(&kinds) {
        assert_eq!(rt; part.piece, Piece::Kind(*kind));
    }
    Ok(())
}

#[test]
fn three_kits_both_ways(rt: HostRuntime) -> Result<(), Fail> {
    let words = [7];
    let rom = Rom::new(&words);
    mixed_is_joined(
        &rt,
        &Pair::new(Sample, Pair::new(Atoms, rom)),
        [6, 0, 1, 2, 4, 3],
    )?;
    mixed_is_joined(
        &rt,
        &Pair::new(Pair::new(rom, Atoms), Sample),
        [0, 3, 4, 5, 1, 6],
    )
}

#[test]
fn wide_parts(rt: HostRuntime) -> Result<(), Fail> {
    let kit = Pair::new(Sample, Atoms);
    accepted(
        &rt,
        &kit,
        &[named(
            b"CHIP W { IN i[8]; OUT o[4]; PARTS: Add4(a=i[0..3], b[2..3]=i[6..7], b[0]=i[4], b[1]=true, sum[1..3]=o[0..2], sum[0]=o[3]); }",
        )],
    )?;
    refused(
        &rt,
        &kit,
        &[named(
            b"CHIP W { IN i[8]; OUT o[4]; PARTS: Add4(a=i[0..3], b[2..3]=i[6..7], b[1..2]=i[4..5], b[0]=true, sum=o); }",
        )],
        12,
        0,
        68,
    )?;
    refused(
        &rt,
        &kit,
        &[named(b"CHIP W { IN i[8]; OUT o[4]; PARTS: Add4(a=i[0..3], b[0..2]=i[4..6], sum=o); }")],
        13,
        0,
        35,
    )?;
    refused(
        &rt,
        &kit,
        &[named(
            b"CHIP W { IN i[8]; OUT o[4]; PARTS: Add4(a=i[0..3], b=i[4..7], sum[0..2]=o[1..3]); }",
        )],
        13,
        0,
        22,
    )?;
    refused(
        &rt,
        &kit,
        &[named(
            b"CHIP W { IN i[8]; OUT o[4]; PARTS: Add4(a=i[0..3], b=i[4..7], sum=o, carry=o[0]); }",
        )],
        12,
        0,
        69,
    )
}
