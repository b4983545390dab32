//! A fault as text for a person, with the line of the text that it stands in. The words are for
//! people, and no contract fixes them.
ghost use Rattle.std.specs.Prelude.{◌≡◌, IfSome};
ghost use Rattle.bundle.specs.Entries.{EntryAt};
ghost use Rattle.bundle.specs.declared.opened.Bundle.{Bundle as Bundled};

use crate::page::Page;
use crate::place::{Spot, locate};
use bundle::{Breach, Bundle, Entry};
use fault::{Cause, Fault, Layer};
use std::alloc::{AllocError, Global};

/// The entry in whose text a fault of the bundle stands, if it stands in one.
fn entry_of<'a>(bytes: &'a [u8], fault: Fault) -> Option<Entry<'a>>
    ensures { IfSome result (λ e. (b : Bundled) × (b.bytes.now ≡ bytes.now) × EntryAt b fault.place.entry e) }
{
    let placed = matches!(fault.cause.layer(), Layer::Reading | Layer::Joining);
    match Bundle::open(bytes) {
        Ok(bundle) if placed => bundle.entry(fault.place.entry),
        _ => None,
    }
}

/// Appends spaces up to a column of the line, where tabs stay tabs, and a caret under it.
fn put_caret(page: &mut Page, before: &[u8]) -> Result<(), AllocError> {
    for b in before {
        page.put(if *b == b'\t' { b"\t" } else { b" " })?;
    }
    page.put(b"^\n")
}

/// Appends a fault that stands in the text of an entry: what and where, the line, and a caret.
fn put_placed(page: &mut Page, fault: Fault, entry: &Entry<'_>) -> Result<(), AllocError> {
    let Fault { cause, place } = fault;
    let number = cause.number();
    let layer = cause.layer();
    let byte = place.byte;
    let text = entry.text;
    let Spot {
        line,
        column,
        start,
        end,
    } = locate(text, byte);
    write!(page, "fault {number} ({layer}) in ")?;
    page.put(entry.name)?;
    write!(
        page,
        " at byte {byte}, line {line}, column {column}: {cause}\n"
    )?;
    page.put(&text[start..end])?;
    page.put(b"\n")?;
    put_caret(page, &text[start..start + column - 1])
}

/// Appends a fault that stands at no place in a text, and which rule of the layout is broken if that
/// is it.
fn put_whole(page: &mut Page, cause: Cause, bytes: &[u8]) -> Result<(), AllocError> {
    let number = cause.number();
    let layer = cause.layer();
    write!(page, "fault {number} ({layer}): {cause}\n")?;
    match Breach::of(bytes) {
        Some(breach) if cause == Cause::BrokenLayout => write!(page, "{breach}\n"),
        _ => Ok(()),
    }
}

/// A fault of the bundle: with its place, if it has one.
pub(crate) fn fault_text(heap: Global, bytes: &[u8], fault: Fault) -> Result<Vec<u8>, AllocError> {
    let mut page = Page::new(heap);
    match entry_of(bytes, fault) {
        Some(entry) => put_placed(&mut page, fault, &entry)?,
        None => put_whole(&mut page, fault.cause, bytes)?,
    }
    Ok(page.into_bytes())
}
