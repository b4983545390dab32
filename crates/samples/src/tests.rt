//! Two texts in hex, and the bundle of them.
use crate::{bundle_of, decode, sources_of};
use std::test::*;

/// The number of entries, a row for each, and the texts, which start at 2 + 2 * 36 = 74.
const BUNDLE: &[u8; 78] = b"\x02\0\
    A\0\0\0\0\0\0\0\0\0\0\0\0\0\0\0\0\0\0\0\0\0\0\0\0\0\0\0\0\0\0\0\x4a\0\x01\0\
    B\0\0\0\0\0\0\0\0\0\0\0\0\0\0\0\0\0\0\0\0\0\0\0\0\0\0\0\0\0\0\0\x4b\0\x03\0\
    a\
    oro";

#[test]
fn words(rt: HostRuntime) -> Result<(), Fail> {
    let heap = rt.alloc();
    assert_eq!(rt; decode(heap, "x")?.as_slice(), b"".as_slice());
    assert_eq!(rt; decode(heap, "x2f2a7f")?.as_slice(), b"/*\x7f".as_slice());
    assert_eq!(rt; decode(heap, "2f")?.as_slice(), b"".as_slice());
    assert_eq!(rt; decode(heap, "x2")?.as_slice(), b"".as_slice());
    assert_eq!(rt; decode(heap, "x2g2F7")?.as_slice(), b"  ".as_slice());
    assert_eq!(rt; decode(heap, "X2f")?.as_slice(), b"/".as_slice());
    assert_eq!(rt; decode(heap, "\u{e9}41")?.as_slice(), b"\x04".as_slice());
    Ok(())
}

#[test]
fn bundles(rt: HostRuntime) -> Result<(), Fail> {
    let heap = rt.alloc();
    let texts = vec![in heap;
        Vec::from_slice(heap, b"a")?,
        Vec::from_slice(heap, b"oro")?,
    ]?;
    let sources = sources_of(heap, texts.as_slice())?;
    assert!(rt; sources.len() == 2);
    assert!(rt; sources[1].name == b"B".as_slice());
    assert!(rt; sources[1].text == b"oro".as_slice());
    assert_eq!(rt;
        bundle_of(heap, "x61 x6f726f")?.as_slice(),
        BUNDLE.as_slice()
    );
    Ok(())
}
