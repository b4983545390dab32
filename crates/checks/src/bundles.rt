//! Bundles that keep the layout, and bundles that break one rule of it.
use bundle::{Breach, Bundle};
use fault::Cause;
use std::alloc::{AllocError, Global};
use std::iter;
use std::process::Abort;
use std::test::*;

/// A row of the table of contents, and how it fills up its name.
#[derive(Clone, Copy)]
struct Row {
    name: &'static [u8],
    start: u16,
    len: u16,
}

/// Appends a row.
fn put_row(out: &mut Vec<u8>, row: &Row) -> Result<(), AllocError> {
    out.extend_from_slice(row.name)?;
    out.extend(iter::repeat_n(0, 32_usize.saturating_sub(row.name.len())))?;
    out.extend_from_slice(&row.start.to_le_bytes())?;
    out.extend_from_slice(&row.len.to_le_bytes())
}

/// The bytes of a bundle as the rows say, right or wrong.
fn bytes_of(heap: Global, rows: &[Row], texts: &[u8]) -> Result<Vec<u8>, AllocError> {
    let mut out = Vec::new(heap);
    out.push((rows.len() & 0xff) as u8)?;
    out.push(0)?;
    for row in rows {
        put_row(&mut out, row)?;
    }
    out.extend_from_slice(texts)?;
    Ok(out)
}

/// That the bytes break the rule, or none, and that `open` says the same.
fn expect(rt: &impl Abort, bytes: &[u8], breach: Option<Breach>) -> Result<(), Fail> {
    assert_eq!(rt; Breach::of(bytes), breach);
    match Bundle::open(bytes) {
        Ok(_) => {
            assert!(rt; breach.is_none());
            Ok(())
        },
        Err(fault) => {
            assert!(rt; breach.is_some());
            assert!(rt; fault.cause == Cause::BrokenLayout);
            assert!(rt; fault.cause.number() == 2);
            assert!(rt; fault.place.entry == 0 && fault.place.byte == 0);
            Ok(())
        }
    }
}

#[test]
fn short_bytes(rt: HostRuntime) -> Result<(), Fail> {
    expect(&rt, &[0, 0], None)?;
    expect(&rt, &[], Some(Breach::NoCount))?;
    expect(&rt, &[0], Some(Breach::NoCount))?;
    expect(&rt, &[0, 0, 0], Some(Breach::LeftOver))?;
    expect(&rt, &[1, 0], Some(Breach::ContentsCut))?;
    expect(&rt, &[129, 0], Some(Breach::TooManyEntries))?;
    expect(&rt, &[0, 1], Some(Breach::TooManyEntries))
}

/// One entry: its name, and the rule that it breaks.
fn one_name(
    rt: &impl Abort,
    heap: Global,
    name: &'static [u8],
    breach: Option<Breach>,
) -> Result<(), Fail> {
    let row = Row {
        name,
        start: 38,
        len: 3,
    };
    expect(rt, bytes_of(heap, &[row], b"abc")?.as_slice(), breach)
}

#[test]
fn names(rt: HostRuntime) -> Result<(), Fail> {
    let heap = rt.alloc();
    let bad = Some(Breach::BadName(0));
    one_name(&rt, heap, b"A", None)?;
    one_name(&rt, heap, b"Abcdefghijklmnopqrstuvwxyz012345", None)?;
    one_name(&rt, heap, b"chip", None)?;
    one_name(&rt, heap, b"", bad)?;
    one_name(&rt, heap, b"7up", bad)?;
    one_name(&rt, heap, b"a_b", bad)?;
    one_name(&rt, heap, b"A\0B", bad)?;
    one_name(&rt, heap, b"PARTS", bad)?;
    one_name(&rt, heap, b"true", bad)
}

#[test]
fn places(rt: HostRuntime) -> Result<(), Fail> {
    let heap = rt.alloc();
    let a = Row {
        name: b"A",
        start: 74,
        len: 2,
    };
    let b = Row {
        name: b"B",
        start: 76,
        len: 3,
    };
    let late = Row {
        name: b"B",
        start: 77,
        len: 2,
    };
    let early = Row {
        name: b"B",
        start: 75,
        len: 4,
    };
    let long = Row {
        name: b"B",
        start: 76,
        len: 4,
    };
    let short = Row {
        name: b"B",
        start: 76,
        len: 2,
    };
    let again = Row {
        name: b"A",
        start: 76,
        len: 3,
    };
    expect(&rt, bytes_of(heap, &[a, b], b"xxyyy")?.as_slice(), None)?;
    expect(
        &rt,
        bytes_of(heap, &[a, late], b"xxyyy")?.as_slice(),
        Some(Breach::Displaced(1)),
    )?;
    expect(
        &rt,
        bytes_of(heap, &[a, early], b"xxyyy")?.as_slice(),
        Some(Breach::Displaced(1)),
    )?;
    expect(
        &rt,
        bytes_of(heap, &[a, long], b"xxyyy")?.as_slice(),
        Some(Breach::PastEnd(1)),
    )?;
    expect(
        &rt,
        bytes_of(heap, &[a, short], b"xxyyy")?.as_slice(),
        Some(Breach::LeftOver),
    )?;
    expect(
        &rt,
        bytes_of(heap, &[a, again], b"xxyyy")?.as_slice(),
        Some(Breach::NotRising(1)),
    )
}

#[test]
fn order_of_names(rt: HostRuntime) -> Result<(), Fail> {
    let heap = rt.alloc();
    let b = Row {
        name: b"B",
        start: 74,
        len: 2,
    };
    let a = Row {
        name: b"A",
        start: 76,
        len: 3,
    };
    let ba = Row {
        name: b"BA",
        start: 76,
        len: 3,
    };
    let small = Row {
        name: b"a",
        start: 76,
        len: 3,
    };
    expect(
        &rt,
        bytes_of(heap, &[b, a], b"xxyyy")?.as_slice(),
        Some(Breach::NotRising(1)),
    )?;
    expect(&rt, bytes_of(heap, &[b, ba], b"xxyyy")?.as_slice(), None)?;
    expect(&rt, bytes_of(heap, &[b, small], b"xxyyy")?.as_slice(), None)
}

#[test]
fn entries_are_found(rt: HostRuntime) -> Result<(), Fail> {
    let a = Row {
        name: b"A",
        start: 74,
        len: 2,
    };
    let b = Row {
        name: b"BA",
        start: 76,
        len: 3,
    };
    let bytes = bytes_of(rt.alloc(), &[a, b], b"xxyyy")?;
    let Ok(bundle) = Bundle::open(bytes.as_slice()) else {
        return Err(Fail::new("a good bundle was refused"));
    };
    assert!(rt; bundle.count() == 2);
    assert_eq!(rt; bundle.find(b"A"), Some(0));
    assert_eq!(rt; bundle.find(b"BA"), Some(1));
    assert_eq!(rt; bundle.find(b"B"), None);
    assert_eq!(rt; bundle.find(b""), None);
    assert!(rt; bundle.entry(2).is_none());
    let Some(entry) = bundle.entry(1) else {
        return Err(Fail::new("there is no second entry"));
    };
    assert!(rt; entry.name == b"BA".as_slice());
    assert!(rt; entry.start == 76);
    assert!(rt; entry.text == b"yyy".as_slice());
    Ok(())
}

/// A bundle of one text that has so many bytes in all.
fn bundle_of_size(heap: Global, len: u16) -> Result<Vec<u8>, AllocError> {
    let mut out = bytes_of(
        heap,
        &[Row {
            name: b"A",
            start: 38,
            len,
        }],
        b"",
    )?;
    out.extend(iter::repeat_n(b' ', usize::from(len)))?;
    Ok(out)
}

#[test]
fn longest_bundle(rt: HostRuntime) -> Result<(), Fail> {
    let longest = bundle_of_size(rt.alloc(), 65_497)?;
    assert!(rt; longest.len() == 65_535);
    expect(&rt, longest.as_slice(), None)?;
    let longer = bundle_of_size(rt.alloc(), 65_498)?;
    assert!(rt; longer.len() == 65_536);
    expect(&rt, longer.as_slice(), Some(Breach::TooLong))
}
