//! What is packed comes back, and what is refused is told.
use bundle::Bundle;
use packer::{PackFault, Source, pack};
use report::{Refusal, list};
use std::alloc::Global;
use std::process::Abort;
use std::test::*;

/// That packing is refused, and why.
fn refused(
    rt: &impl Abort,
    heap: Global,
    sources: &[Source<'_>],
    why: PackFault,
) -> Result<(), Fail> {
    match pack(heap, sources) {
        Ok(_) => Err(Fail::new("packed in spite of a fault")),
        Err(fault) => {
            assert_eq!(rt; fault, why);
            Ok(())
        },
    }
}

fn source<'a>(name: &'a [u8], text: &'a [u8]) -> Source<'a> {
    Source { name, text }
}

#[test]
fn refusals(rt: HostRuntime) -> Result<(), Fail> {
    let heap = rt.alloc();
    let good = source(b"And", b"x");
    refused(
        &rt,
        heap,
        &[good, source(b"7up", b"")],
        PackFault::BadName(1),
    )?;
    refused(
        &rt,
        heap,
        &[source(b"IN", b""), good],
        PackFault::BadName(0),
    )?;
    refused(
        &rt,
        heap,
        &[good, source(b"Or", b""), good],
        PackFault::DuplicateName(2),
    )?;
    refused(&rt, heap, &[good; 129], PackFault::TooManyEntries)?;
    refused(&rt, heap, &[good; 128], PackFault::DuplicateName(1))?;
    refused(
        &rt,
        heap,
        &[good, source(b"Big", &[b' '; 65_500])],
        PackFault::TooLong(1),
    )
}

#[test]
fn texts_come_back(rt: HostRuntime) -> Result<(), Fail> {
    let heap = rt.alloc();
    let sources = [
        source(b"Xor", b"three"),
        source(b"And", b"one"),
        source(b"Or", b""),
    ];
    let Ok(bytes) = pack(heap, &sources) else {
        return Err(Fail::new("good texts were refused"));
    };
    let Ok(bundle) = Bundle::open(bytes.as_slice()) else {
        return Err(Fail::new("what was packed does not open"));
    };
    assert!(rt; bundle.count() == 3);
    for s in &sources {
        let Some(k) = bundle.find(s.name) else {
            return Err(Fail::new("a name is missing"));
        };
        let Some(entry) = bundle.entry(k) else {
            return Err(Fail::new("an entry is missing"));
        };
        assert!(rt; entry.text == s.text);
    }
    Ok(())
}

#[test]
fn full_bundle(rt: HostRuntime) -> Result<(), Fail> {
    let heap = rt.alloc();
    let names = b"ABCDEFGHIJKLMNOPQRSTUVWXYZabcdefghijklmnopqrstuvwxyz";
    let mut sources = Vec::new(heap);
    // By number: up to three names begin at each letter, and chains of windows are no plainer.
    for i in 0..52 {
        sources.push(source(&names[i..i + 1], b"t"))?;
        if i + 2 <= 52 {
            sources.push(source(&names[i..i + 2], b"tt"))?;
        }
        if i + 3 <= 27 {
            sources.push(source(&names[i..i + 3], b""))?;
        }
    }
    assert!(rt; sources.len() == 128);
    let Ok(bytes) = pack(heap, sources.as_slice()) else {
        return Err(Fail::new("128 texts were refused"));
    };
    assert!(rt; bytes.len() == 2 + 36 * 128 + 52 + 2 * 51);
    assert!(rt; Bundle::open(bytes.as_slice()).is_ok());
    assert!(rt; list(heap, bytes.as_slice()).is_ok());
    Ok(())
}

#[test]
fn reports(rt: HostRuntime) -> Result<(), Fail> {
    let heap = rt.alloc();
    let Ok(empty) = list(heap, &[0, 0]) else {
        return Err(Fail::new("an empty bundle was refused"));
    };
    assert!(rt; empty.as_slice() == b"0 texts, 2 bytes\n".as_slice());
    let Err(Refusal::Told(broken)) = list(heap, &[1, 0]) else {
        return Err(Fail::new("bytes that break the layout were listed"));
    };
    let words: &[u8] =
        b"fault 2 (bundle): the layout is broken\nthe bundle ends inside its table of contents\n";
    assert!(rt; broken.as_slice() == words);
    Ok(())
}
