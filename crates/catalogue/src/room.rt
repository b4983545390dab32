//! What a catalogue keeps, and memory for one.
ghost use Rattle.std.specs.Prelude.{◌≡◌, length, replicate, Decides};
ghost use Rattle.catalogue.specs.Records.{blank_connection, blank_part, blank_pin, none};
ghost use Rattle.catalogue.specs.Holding.{Enough, Fills, Lent, Long, counted, slices};

use crate::lent::Table;
use crate::records::{ConnectionRecord, PartRecord, PinRecord};
use crate::table::Record;
use std::fmt;

/// The least pin records that a catalogue has, and the most that the texts fill.
pub const PINS: usize = 1_024;

/// The same of parts.
pub const PARTS: usize = 1_024;

/// The same of connections.
pub const CONNECTIONS: usize = 4_096;

/// How many records of each kind there are.
#[derive(Clone, Copy, Debug, PartialEq, Eq)]
pub struct Counts {
    pub pins: usize,
    pub parts: usize,
    pub connections: usize,
}

impl Counts {
    pub const NONE: Counts = Counts {
        pins: 0,
        parts: 0,
        connections: 0,
    };
}

impl fmt::Display for Counts {
    fn fmt<W: fmt::Write>(&self, f: &mut fmt::Formatter<W>) -> fmt::Result {
        let Counts {
            pins,
            parts,
            connections,
        } = *self;
        write!(f, "{pins} pins, {parts} parts, {connections} connections")
    }
}

/// The records of a bundle's texts, in the order of the texts.
#[derive(Drop)]
pub struct Catalogue<'c> {
    pub pins: Table<'c, PinRecord>,
    pub parts: Table<'c, PartRecord>,
    pub connections: Table<'c, ConnectionRecord>,
}

impl<'c> Catalogue<'c> {
    /// A catalogue over memory that is lent, made blank.
    pub fn new(
        pins: &'c mut [PinRecord],
        parts: &'c mut [PartRecord],
        connections: &'c mut [ConnectionRecord],
    ) -> Catalogue<'c>
        ensures lent { (result.pins.rows.ghost_name ≡ pins.entry.ghost_name) × (result.parts.rows.ghost_name ≡ parts.entry.ghost_name) × (result.connections.rows.ghost_name ≡ connections.entry.ghost_name) }
        ensures long { (length result.pins.rows.now ≡ length pins.old) × (length result.parts.rows.now ≡ length parts.old) × (length result.connections.rows.now ≡ length connections.old) }
        ensures blank { Fills result none }
    {
        Catalogue {
            pins: Table::new(pins),
            parts: Table::new(parts),
            connections: Table::new(connections),
        }
    }

    /// A catalogue over memory that is lent, as it stands, that has no records.
    pub fn over(
        pins: &'c mut [PinRecord],
        parts: &'c mut [PartRecord],
        connections: &'c mut [ConnectionRecord],
    ) -> Catalogue<'c>
        ensures lent { (result.pins.rows.ghost_name ≡ pins.entry.ghost_name) × (result.parts.rows.ghost_name ≡ parts.entry.ghost_name) × (result.connections.rows.ghost_name ≡ connections.entry.ghost_name) }
        ensures over { slices result ≡ record { pins = pins.old; parts = parts.old; connections = connections.old } }
        ensures none { counted result ≡ record { pins = 0; parts = 0; connections = 0 } }
    {
        Catalogue {
            pins: Table {
                rows: pins,
                used: 0,
            },
            parts: Table {
                rows: parts,
                used: 0,
            },
            connections: Table {
                rows: connections,
                used: 0,
            },
        }
    }

    /// Whether there is room for as many records as the texts of a bundle may have.
    pub fn is_enough(&self) -> bool
        ensures { Decides result (Enough (slices self.now)) }
    {
        self.pins.rows.len() >= PINS
            && self.parts.rows.len() >= PARTS
            && self.connections.rows.len() >= CONNECTIONS
    }

    /// How many records are in it.
    pub fn counts(&self) -> Counts
        ensures { result ≡ counted self.now }
    {
        Counts {
            pins: self.pins.used,
            parts: self.parts.used,
            connections: self.connections.used,
        }
    }

    /// Makes it blank again.
    pub fn clear(&mut self)
        ensures lent { Lent self.old self.new }
        ensures long { Long self.old self.new }
        ensures blank { Fills self.new none }
    {
        self.pins.clear();
        self.parts.clear();
        self.connections.clear();
    }
}

/// Memory for a catalogue of just enough records, for a caller that has none of its own.
// It is handed out by value, which copies 0.7 MB: who calls often makes the three arrays where they stay.
#[derive(Drop)]
pub struct Room {
    pub pins: [PinRecord; PINS],
    pub parts: [PartRecord; PARTS],
    pub connections: [ConnectionRecord; CONNECTIONS],
}

impl Room {
    pub fn new() -> Room
        ensures pins { result.pins ≡ replicate 1024 blank_pin }
        ensures parts { result.parts ≡ replicate 1024 blank_part }
        ensures connections { result.connections ≡ replicate 4096 blank_connection }
    {
        Room {
            pins: [PinRecord::BLANK; PINS],
            parts: [PartRecord::BLANK; PARTS],
            connections: [ConnectionRecord::BLANK; CONNECTIONS],
        }
    }

    /// A catalogue over it that has no records.
    pub fn catalogue(&mut self) -> Catalogue<'_>
        ensures over { slices result ≡ record { pins = self.old.pins; parts = self.old.parts; connections = self.old.connections } }
        ensures none { counted result ≡ record { pins = 0; parts = 0; connections = 0 } }
    {
        let pins = &mut self.pins;
        let parts = &mut self.parts;
        let connections = &mut self.connections;
        Catalogue::over(pins, parts, connections)
    }
}
