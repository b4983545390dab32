//! Answers of the kits on examples.
use crate::{Atoms, Kit, Pair, Pin, Rom};

#[test]
fn atoms_answer_by_formula(rt: HostRuntime) {
    for (input, out) in [(0b00, 1), (0b01, 1), (0b10, 1), (0b11, 0)] {
        assert_eq!(rt; Atoms.out(0, input, 0), out);
    }
    for level in [0, 1] {
        assert_eq!(rt; Atoms.out(1, 1 - level, level), level);
        assert_eq!(rt; Atoms.next(1, level, 1 - level), level);
    }
    assert_eq!(rt; Atoms.find(b"DFF"), Some(1));
    assert_eq!(rt; Atoms.pin(0, b"b"), Some(Pin::input(1, 1)));
}

#[test]
fn rom_answers_words(rt: HostRuntime) {
    let rom = Rom::new(&[7, 65535]);
    assert_eq!(rt; rom.out(0, 1, 0), 65535);
    assert_eq!(rt; rom.out(0, 0x8000, 0), 7);
    assert_eq!(rt; rom.out(0, 2, 0), 0);
    assert_eq!(rt; rom.waits(0, 15), 0x7fff);
}

#[test]
fn pairs_count_on(rt: HostRuntime) {
    let words = [9];
    let left = Pair::new(Pair::new(Atoms, Rom::new(&words)), Atoms);
    let right = Pair::new(Atoms, Pair::new(Rom::new(&words), Atoms));
    assert_eq!(rt; left.find(b"ROM"), Some(2));
    assert_eq!(rt; right.find(b"ROM"), Some(2));
    assert_eq!(rt; left.find(b"DFF"), Some(1));
    assert_eq!(rt; right.find(b"Xor"), None);
    for kind in 0..6 {
        assert_eq!(rt; left.out(kind, 0, 1), right.out(kind, 0, 1));
        assert_eq!(rt; left.waits(kind, 0), right.waits(kind, 0));
    }
    assert_eq!(rt; left.out(2, 0, 0), 9);
    assert_eq!(rt; right.count(), 5);
}
