//! The rules of the layout, one after another.
ghost use Rattle.std.specs.Prelude.{◌≡◌, suc, ◌≤◌, length, MatchOption, MatchResult};
ghost use Rattle.bundle.specs.Layout.{Layout, Listed, EntryStands, count, end_before};
ghost use Rattle.bundle.specs.Breaches.{Broken, Upto};

use crate::breach::Breach;
use crate::row::{ROW, Row, number_at};

/// The most bytes that a bundle may have.
pub const MAX_BYTES: usize = 65_535;

/// The most entries that a bundle may have.
pub const MAX_ENTRIES: usize = 128;

/// Checks the entry `k`, whose text is to start at `end`, and answers where it ends.
fn check_entry(bytes: &[u8], k: usize, end: usize) -> Result<usize, Breach>
    requires upto { Upto bytes.now k }
    requires end { end ≡ end_before bytes.now k }
    ensures { MatchResult result
        (λ e. EntryStands bytes.now k × (e ≡ end_before bytes.now (suc k)))
        (λ b. Broken bytes.now b) }
{
    let row = Row { bytes, k };
    if !row.name_stands() {
        return Err(Breach::BadName(k));
    }
    if !row.rises() {
        return Err(Breach::NotRising(k));
    }
    if row.start() != end {
        return Err(Breach::Displaced(k));
    }
    let stop = row.end();
    if stop > bytes.len() {
        return Err(Breach::PastEnd(k));
    }
    Ok(stop)
}

/// Checks the entries, and that the last text ends with the bundle.
fn check_entries(bytes: &[u8], entries: usize) -> Result<(), Breach>
    requires listed { Listed bytes.now }
    requires counted { entries ≡ count bytes.now }
    ensures { MatchResult result (λ _. Layout bytes.now) (λ b. Broken bytes.now b) }
{
    let mut end = 2 + ROW * entries;
    // A `for` with `?` is as plain as `try_fold`, and each entry asks what those before it kept.
    for k in 0..entries {
        end = check_entry(bytes, k, end)?;
    }
    if end < bytes.len() {
        return Err(Breach::LeftOver);
    }
    Ok(())
}

/// How many entries a bundle has, or the first rule that it breaks.
pub fn check(bytes: &[u8]) -> Result<usize, Breach>
    ensures { MatchResult result
        (λ n. Layout bytes.now × (n ≡ count bytes.now))
        (λ b. Broken bytes.now b) }
{
    if bytes.len() < 2 {
        return Err(Breach::NoCount);
    }
    if bytes.len() > MAX_BYTES {
        return Err(Breach::TooLong);
    }
    let count = number_at(bytes, 0);
    if count > MAX_ENTRIES {
        return Err(Breach::TooManyEntries);
    }
    if bytes.len() < 2 + ROW * count {
        return Err(Breach::ContentsCut);
    }
    check_entries(bytes, count)?;
    Ok(count)
}

impl Breach {
    /// The first rule of the layout that the bytes break, or `None` where they are a bundle.
    pub fn of(bytes: &[u8]) -> Option<Breach>
        ensures { MatchOption result (Layout bytes.now) (λ b. Broken bytes.now b) }
    {
        check(bytes).err()
    }
}
