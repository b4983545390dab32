//! A bundle that keeps the layout, over bytes that it borrows.
ghost use Rattle.std.specs.Prelude.{◌≡◌, ℕ, ◌<◌, ◌≤◌, Some, MatchOption, MatchResult};
ghost use Rattle.bundle.specs.Layout.{Layout, count};

use crate::check::check;
use crate::row::Row;
use fault::Fault;

/// An opened bundle.
#[derive(Clone, Copy)]
pub struct Bundle<'a> {
    bytes: &'a [u8],
    // Kept, so that it is read once; `counted` ties it to the bytes.
    entries: usize,
    pub ghost layout: { Layout bytes.now },
    pub ghost counted: { entries ≡ count bytes.now },
}

/// An entry: its name, where its text starts in the bundle, and the text.
#[derive(Clone, Copy)]
pub struct Entry<'a> {
    pub name: &'a [u8],
    pub start: usize,
    pub text: &'a [u8],
}

/// The entries of a bundle, one after another.
#[derive(Drop)]
pub struct Entries<'a> {
    bundle: Bundle<'a>,
    next: usize,
    pub ghost within: { next ≤ bundle.entries },
}

impl<'a> Bundle<'a> {
    ghost use Rattle.fault.specs.Faults.{nowhere};
    ghost use Rattle.fault.specs.declared.Cause.TheVariants.{BrokenLayout};
    ghost use Rattle.bundle.specs.Entries.{EntryAt, Goes, Lies, Opened};

    /// The bundle that the bytes are, or fault 2 where they break the layout.
    pub fn open(bytes: &'a [u8]) -> Result<Bundle<'a>, Fault>
        ensures { MatchResult result
            (λ b. Opened b × (b.bytes.now ≡ bytes.now))
            (λ f. (Layout bytes.now → ⊥) × (f ≡ nowhere BrokenLayout)) }
    {
        let entries = check(bytes)?;
        Ok(Bundle { bytes, entries })
    }

    /// How many entries there are.
    pub fn count(&self) -> usize
        ensures { result ≡ self.now.entries }
    {
        self.entries
    }

    /// The entry `k`, or `None` where there is no such entry.
    pub fn entry(&self, k: usize) -> Option<Entry<'a>>
        ensures { MatchOption result (Lies self.now k → ⊥) (λ e. EntryAt self.now k e) }
    {
        if k >= self.count() {
            return None;
        }
        let row = Row {
            bytes: self.bytes,
            k,
        };
        let start = row.start();
        Some(Entry {
            name: row.name(),
            start,
            text: &self.bytes[start..row.end()],
        })
    }

    /// The entries, in the order of their numbers.
    pub fn entries(&self) -> Entries<'a>
        ensures bundle { result.bundle ≡ self.now }
        ensures first { result.next ≡ 0 }
    {
        Entries {
            bundle: *self,
            next: 0,
        }
    }

    /// The number of the entry that goes by the name.
    // A walk over at most 128 rows, most of which differ in length or in the last byte.
    pub fn find(&self, name: &[u8]) -> Option<usize>
        ensures first { MatchOption result
            ((k : ℕ) → Goes self.now name.now k → ⊥)
            (λ k. Goes self.now name.now k × ((j : ℕ) → j < k → Goes self.now name.now j → ⊥)) }
        ensures only { Opened self.now → (k : ℕ) → Goes self.now name.now k → result ≡ Some k }
    {
        self.entries()
            .position(|entry| text::same(entry.name, name))
    }
}

impl<'a> Iterator for Entries<'a> {
    ghost use Rattle.std.specs.Prelude.{◌-◌};
    ghost use Rattle.std.specs.Iterator.{at_most};
    ghost use Rattle.bundle.specs.Entries.{NextEntry};

    type Item = Entry<'a>;

    ghost next_gives = { NextEntry };

    ghost remaining = { λ s. at_most (s.bundle.entries - s.next) };

    /// The next entry.
    fn next(&mut self) -> Option<Entry<'a>> {
        let entry = self.bundle.entry(self.next)?;
        self.next += 1;
        Some(entry)
    }
}
