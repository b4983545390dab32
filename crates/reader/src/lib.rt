//! Reading: the texts of a bundle become records of the catalogue, or the first fault is told.
#![tactic(auto)]

ghost use Rattle.std.specs.Prelude.{◌≡◌, ℕ, suc, ◌<◌, length, MatchResult};
ghost use Rattle.fault.specs.Faults.{nowhere};
ghost use Rattle.bundle.specs.Layout.{Layout};
ghost use Rattle.bundle.specs.Entries.{Opened};
ghost use Rattle.catalogue.specs.Records.{none};
ghost use Rattle.catalogue.specs.Holding.{Enough, Fills, Lent, Long, counted, slices};
ghost use Rattle.reader.specs.Verdicts.{Accepted, AllRead, FilledUpto, Refusal, Refused, Unread};

use bundle::Bundle;
use catalogue::{Catalogue, Counts};
use fault::{Cause, Fault};
use parser::read_text;

mod single;

pub use single::verdicts_are_one;

/// Reads the texts of a bundle, one behind the other, up to the first that has a fault.
fn read_texts(bundle: &Bundle<'_>, catalogue: &mut Catalogue<'_>) -> Result<(), Fault>
    requires enough { Enough (slices catalogue.old) }
    requires blank { Fills catalogue.old none }
    ensures lent { Lent catalogue.old catalogue.new }
    ensures long { Long catalogue.old catalogue.new }
    ensures reads { MatchResult result
        (λ _. AllRead bundle.now.bytes.now catalogue.new)
        (λ f. Unread bundle.now.bytes.now f) }
{
    for (k, entry) in bundle.entries().enumerate() {
        read_text(k, entry.name, entry.text, catalogue)?;
    }
    Ok(())
}

/// Fills a catalogue with the records of a bundle's texts.
fn fill(bytes: &[u8], catalogue: &mut Catalogue<'_>) -> Result<(), Fault>
    ensures lent { Lent catalogue.old catalogue.new }
    ensures long { Long catalogue.old catalogue.new }
    ensures reads { MatchResult result
        (λ _. Enough (slices catalogue.old) × Layout bytes.now × AllRead bytes.now catalogue.new)
        (λ f. Refusal bytes.now (slices catalogue.old) f) }
{
    if !catalogue.is_enough() {
        return Err(Fault::of_whole(Cause::SmallCatalogue));
    }
    let bundle = Bundle::open(bytes)?;
    catalogue.clear();
    read_texts(&bundle, catalogue)
}

/// Reads all texts of a bundle into a catalogue, in place of what it has. A refusal leaves it blank.
pub fn read(bytes: &[u8], catalogue: &mut Catalogue<'_>) -> Result<Counts, Fault>
    ensures lent { Lent catalogue.old catalogue.new }
    ensures long { Long catalogue.old catalogue.new }
    ensures verdict { MatchResult result
        (λ n. Accepted bytes.now (slices catalogue.old) (slices catalogue.new) n)
        (λ f. Refused bytes.now (slices catalogue.old) (slices catalogue.new) f) }
    ensures counted { MatchResult result (λ n. n ≡ counted catalogue.new) (λ _. Fills catalogue.new none) }
{
    match fill(bytes, catalogue) {
        Ok(()) => Ok(catalogue.counts()),
        Err(fault) => {
            catalogue.clear();
            Err(fault)
        }
    }
}
