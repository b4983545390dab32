//! The outline of chips: pins with widths, and parts with their connections, as the texts have them.
//! No contract fixes it.
ghost use Rattle.bundle.specs.Layout.{Layout};

use crate::page::Page;
use bundle::{Bundle, Entry};
use catalogue::{Catalogue, ConnectionRecord, FarEnd, PartRecord, PinRecord, Side};
use std::alloc::{AllocError, Global};

/// Appends a pin, with its width if that is not 1.
fn put_pin(page: &mut Page, text: &[u8], pin: &PinRecord) -> Result<(), AllocError> {
    page.put(pin.name.cut(text))?;
    match pin.width {
        1 => Ok(()),
        width => write!(page, "[{width}]"),
    }
}

/// Appends the line of a side of the chip of the entry `k`, unless it has no pins.
fn put_side(
    page: &mut Page,
    k: usize,
    entry: &Entry<'_>,
    pins: &[PinRecord],
    side: Side,
) -> Result<(), AllocError> {
    let mut own = pins.iter().filter(|pin| pin.entry == k && pin.side == side);
    let Some(first) = own.next() else {
        return Ok(());
    };
    page.put(match side {
        Side::In => b"    IN ".as_slice(),
        Side::Out => b"    OUT ".as_slice(),
    })?;
    put_pin(page, entry.text, first)?;
    for pin in own {
        page.put(b", ")?;
        put_pin(page, entry.text, pin)?;
    }
    page.put(b"\n")
}

/// Appends the far end of a connection.
fn put_far(page: &mut Page, text: &[u8], far: FarEnd) -> Result<(), AllocError> {
    match far {
        FarEnd::Constant(value) => write!(page, "{value}"),
        FarEnd::Pin(name, bits) => {
            page.put(name.cut(text))?;
            write!(page, "{bits}")
        }
    }
}

/// Appends a part with the connections that are its own.
fn put_part(
    page: &mut Page,
    text: &[u8],
    part: &PartRecord,
    connections: &[ConnectionRecord],
) -> Result<(), AllocError> {
    page.put(b"    ")?;
    page.put(part.name.cut(text))?;
    let mut lead: &[u8] = b"(";
    for c in connections.iter().skip(part.connections).take(part.count) {
        let bits = c.bits;
        page.put(lead)?;
        page.put(c.name.cut(text))?;
        write!(page, "{bits}=")?;
        put_far(page, text, c.far)?;
        lead = b", ";
    }
    page.put(b")\n")
}

/// Appends the outline of the chip of the entry `k`.
fn put_chip(
    page: &mut Page,
    k: usize,
    entry: &Entry<'_>,
    catalogue: &Catalogue<'_>,
) -> Result<(), AllocError> {
    let pins = catalogue.pins.as_slice();
    let connections = catalogue.connections.as_slice();
    page.put(entry.name)?;
    page.put(b"\n")?;
    put_side(page, k, entry, pins, Side::In)?;
    put_side(page, k, entry, pins, Side::Out)?;
    for part in catalogue
        .parts
        .as_slice()
        .iter()
        .filter(|part| part.entry == k)
    {
        put_part(page, entry.text, part, connections)?;
    }
    Ok(())
}

/// The outline of every chip of the bundle that the bytes are, and how many records there are.
pub(crate) fn outline_text(
    heap: Global,
    bytes: &[u8],
    catalogue: &Catalogue<'_>,
) -> Result<Vec<u8>, AllocError>
    requires { Layout bytes.now }
{
    let bundle = Bundle::open(bytes).unwrap();
    let mut page = Page::new(heap);
    for (k, entry) in bundle.entries().enumerate() {
        put_chip(&mut page, k, &entry, catalogue)?;
    }
    let chips = bundle.count();
    let counts = catalogue.counts();
    write!(page, "{chips} chips, {counts}\n")?;
    Ok(page.into_bytes())
}
