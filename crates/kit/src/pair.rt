//! Two kits as one.
ghost use Rattle.std.specs.Prelude.{◌≡◌};
ghost use Rattle.kit.specs.Pairs.{pair, seat};
ghost use Rattle.kit.specs.PairLaws.{pair_sound};

use crate::kits::{Kit, MAX_KINDS};
use crate::shape::{Pin, Size};

/// The kinds of the first kit, and then those of the second, which has its kind k as the first's
/// count plus k.
///
/// A name is sought in the first kit, then in the second. The count is the sum, at most 65,535:
/// a kind of the second kit that is numbered at or past that is not found.
#[derive(Drop)]
pub struct Pair<F, S> {
    first: F,
    second: S,
}

/// The kit of a pair that has a kind, and under which number.
#[derive(Clone, Copy)]
enum Seat {
    First(usize),
    Second(usize),
}

impl<F, S> Pair<F, S> {
    /// The two kits as one.
    pub fn new(first: F, second: S) -> Pair<F, S>
        ensures first { result.first ≡ first }
        ensures second { result.second ≡ second }
    {
        Pair { first, second }
    }
}

impl<F: Kit, S: Kit> Pair<F, S> {
    /// The kit that has a kind, and under which number, or none.
    fn seat(&self, kind: usize) -> Option<Seat>
        ensures { result ≡ seat (F.Kit.model self.now.first).count (S.Kit.model self.now.second).count kind }
    {
        let count = self.first.count();
        if kind < count {
            Some(Seat::First(kind))
        } else if kind < self.count() {
            Some(Seat::Second(kind - count))
        } else {
            None
        }
    }
}

// Each question is asked in both arms of its own match: F and S are two types, a `&dyn Kit` of either gets
// no proof here, and a closure for each arm would be longer than the arm.
impl<F: Kit, S: Kit> Kit for Pair<F, S> {
    ghost model = { λ p. pair (F.Kit.model p.first) (S.Kit.model p.second) };

    ghost sound = { λ p. pair_sound (F.Kit.model p.first) (S.Kit.model p.second) (F.Kit.sound p.first) (S.Kit.sound p.second) };

    fn count(&self) -> usize {
        (self.first.count() + self.second.count()).min(MAX_KINDS)
    }

    fn find(&self, name: &[u8]) -> Option<usize> {
        if let Some(kind) = self.first.find(name) {
            return Some(kind);
        }
        let kind = self.first.count() + self.second.find(name)?;
        (kind < self.count()).then_some(kind)
    }

    fn pin(&self, kind: usize, name: &[u8]) -> Option<Pin> {
        match self.seat(kind)? {
            Seat::First(kind) => self.first.pin(kind, name),
            Seat::Second(kind) => self.second.pin(kind, name),
        }
    }

    fn size(&self, kind: usize) -> Size {
        match self.seat(kind) {
            Some(Seat::First(kind)) => self.first.size(kind),
            Some(Seat::Second(kind)) => self.second.size(kind),
            None => Size::NONE,
        }
    }

    fn out(&self, kind: usize, input: u64, state: u64) -> u64 {
        match self.seat(kind) {
            Some(Seat::First(kind)) => self.first.out(kind, input, state),
            Some(Seat::Second(kind)) => self.second.out(kind, input, state),
            None => 0,
        }
    }

    fn next(&self, kind: usize, input: u64, state: u64) -> u64 {
        match self.seat(kind) {
            Some(Seat::First(kind)) => self.first.next(kind, input, state),
            Some(Seat::Second(kind)) => self.second.next(kind, input, state),
            None => 0,
        }
    }

    fn waits(&self, kind: usize, output: usize) -> u64 {
        match self.seat(kind) {
            Some(Seat::First(kind)) => self.first.waits(kind, output),
            Some(Seat::Second(kind)) => self.second.waits(kind, output),
            None => 0,
        }
    }
}
