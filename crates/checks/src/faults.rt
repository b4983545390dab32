//! Faults as a person sees them: what, where, the line, and a caret under the column.
use packer::{Source, pack};
use report::{Refusal, outline};
use std::process::Abort;
use std::test::*;

/// That the outline of one text, named Xor, is refused in these words.
fn said(rt: &(impl Abort + AllocGlobal), text: &[u8], words: &[u8]) -> Result<(), Fail> {
    let heap = rt.alloc();
    let source = Source { name: b"Xor", text };
    let Ok(bytes) = pack(heap, &[source]) else {
        return Err(Fail::new("the text was not packed"));
    };
    let Err(Refusal::Told(told)) = outline(heap, bytes.as_slice()) else {
        return Err(Fail::new("the text was read"));
    };
    assert!(rt; told.as_slice() == words);
    Ok(())
}

#[test]
fn placed(rt: HostRuntime) -> Result<(), Fail> {
    said(
        &rt,
        b"CHIP Xor {\n  IN a;\n  OUT b;\n  PARTS:\n  (a=b);\n}\n",
        b"fault 5 (reading) in Xor at byte 39, line 5, column 3: the text does not continue like this\n  (a=b);\n  ^\n",
    )?;
    said(
        &rt,
        b"",
        b"fault 5 (reading) in Xor at byte 0, line 1, column 1: the text does not continue like this\n\n^\n",
    )?;
    said(
        &rt,
        b"CHIP Xor {\n\tOUT b[17] ;",
        b"fault 7 (reading) in Xor at byte 22, line 2, column 12: the pin before is declared twice, is not 1 to 16 bits wide, or makes its side wider than 64 bits\n\tOUT b[17] ;\n\t          ^\n",
    )
}
