//! Two sources in the wrong order, and two with one name.
use crate::{PackFault, Source, pack};
use std::test::Fail;

/// The number of entries, a row for each, and the texts, which start at 2 + 2 * 36 = 74.
const BUNDLE: &[u8; 78] = b"\x02\0\
    And\0\0\0\0\0\0\0\0\0\0\0\0\0\0\0\0\0\0\0\0\0\0\0\0\0\0\0\0\0\x4a\0\x01\0\
    Or\0\0\0\0\0\0\0\0\0\0\0\0\0\0\0\0\0\0\0\0\0\0\0\0\0\0\0\0\0\0\x4b\0\x03\0\
    a\
    oro";

const OR: Source<'static> = Source {
    name: b"Or",
    text: b"oro",
};

const AND: Source<'static> = Source {
    name: b"And",
    text: b"a",
};

#[test]
fn names_rise(rt: HostRuntime) -> Result<(), Fail> {
    let bytes = pack(rt.alloc(), &[OR, AND])?;
    assert!(rt; bytes.as_slice() == BUNDLE.as_slice());
    Ok(())
}

#[test]
fn one_name_twice(rt: HostRuntime) {
    assert!(rt;
        matches!(
            pack(rt.alloc(), &[OR, AND, OR]),
            Err(PackFault::DuplicateName(2))
        )
    );
}
