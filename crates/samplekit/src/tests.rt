//! Answers of the kit on examples.
use crate::Sample;
use kit::{Kit, Pin};

#[test]
fn unclocked_kinds_answer_by_formula(rt: HostRuntime) {
    assert_eq!(rt; Sample.find(b"Add4"), Some(0));
    assert_eq!(rt; Sample.out(0, 0x97, 0), 0x10);
    assert_eq!(rt; Sample.waits(0, 4), 0xff);
    assert_eq!(rt; Sample.pin(0, b"carry"), Some(Pin::output(4, 1)));
    assert_eq!(rt; Sample.find(b"Split"), Some(1));
    assert_eq!(rt; Sample.out(1, 0x31234, 0), 0x1234);
    assert_eq!(rt; Sample.waits(1, 9), 0x200);
    assert_eq!(rt; Sample.pin(1, b"high"), Some(Pin::output(8, 8)));
}

#[test]
fn clocked_kinds_hold_a_number(rt: HostRuntime) {
    assert_eq!(rt; Sample.find(b"Reg8"), Some(2));
    assert_eq!(rt; Sample.next(2, 0x1a5, 7), 0xa5);
    assert_eq!(rt; Sample.next(2, 0xa5, 7), 7);
    assert_eq!(rt; Sample.out(2, 0, 7), 7);
    assert_eq!(rt; Sample.find(b"Count4"), Some(3));
    assert_eq!(rt; Sample.next(3, 0, 14), 15);
    assert_eq!(rt; Sample.next(3, 0, 15), 0);
    assert_eq!(rt; Sample.next(3, 1, 14), 0);
    assert_eq!(rt; Sample.out(3, 0, 15), 15);
}
