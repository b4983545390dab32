//! The contents of a bundle as a table.
ghost use Rattle.std.specs.Prelude.{◌≡◌, ◌++◌, [], length, IfOk, OnOk};
ghost use Rattle.bundle.specs.Entries.{EntryAt};
ghost use Rattle.bundle.specs.declared.opened.Bundle.{Bundle as Bundled};
ghost use Rattle.report.specs.Columns.{line, lines, listing as listed, total, widest};

use crate::page::Page;
use bundle::{Bundle, Entry};
use std::alloc::{AllocError, Global};

/// Appends the line of the entry `k`.
fn put_entry(page: &mut Page, k: usize, entry: &Entry<'_>, width: usize) -> Result<(), AllocError>
    ensures { OnOk result ((b : Bundled) → EntryAt b k entry.now →
        page.new.bytes.items ≡ page.old.bytes.items ++ line b.bytes.now width k) }
{
    page.put_right(k, 3)?;
    page.put(b" ")?;
    page.put_left(entry.name, width)?;
    page.put(b" ")?;
    page.put_right(entry.start, 5)?;
    page.put(b" ")?;
    page.put_right(entry.text.len(), 5)?;
    page.put(b"\n")
}

/// The length of the longest name.
fn name_width(bundle: &Bundle<'_>) -> usize
    ensures { result ≡ widest bundle.now.bytes.now bundle.now.entries }
{
    bundle
        .entries()
        .map(|entry| entry.name.len())
        .max()
        .unwrap_or(0)
}

/// Appends the lines of the entries.
fn put_entries(page: &mut Page, bundle: &Bundle<'_>, width: usize) -> Result<(), AllocError>
    ensures { OnOk result (page.new.bytes.items ≡
        page.old.bytes.items ++ lines bundle.now.bytes.now width bundle.now.entries) }
{
    for (k, entry) in bundle.entries().enumerate() {
        put_entry(page, k, &entry, width)?;
    }
    Ok(())
}

/// Appends the line that counts texts and bytes.
fn put_total(page: &mut Page, count: usize, bytes: usize) -> Result<(), AllocError>
    ensures { OnOk result (page.new.bytes.items ≡ page.old.bytes.items ++ total count bytes) }
{
    write!(page, "{count} texts, {bytes} bytes\n")
}

/// The table of a bundle of so many bytes: a line an entry, and how many there are.
pub fn listing(heap: Global, bundle: &Bundle<'_>, bytes: usize) -> Result<Vec<u8>, AllocError>
    requires { bytes ≡ length bundle.now.bytes.now }
    ensures { IfOk result (λ v. v.items ≡ listed bundle.now.bytes.now) }
{
    let mut page = Page::new(heap);
    put_entries(&mut page, bundle, name_width(bundle))?;
    put_total(&mut page, bundle.count(), bytes)?;
    Ok(page.into_bytes())
}
