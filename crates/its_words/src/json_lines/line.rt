//! A value as a line of text.

ghost use Rattle.std.specs.Prelude.{◌≤◌, IfOk, vec_capacity};
ghost use Rattle.its_words.specs.JsonLines.{IsLine};

use crate::json_lines::compact::{Compact, Room};
use crate::json_lines::fault::JsonFault;
use serde::Serialize;
use std::alloc::{AllocError, Global};
use std::mem;

/// The size of the buffer of a new line, in octets.
const ROOM: usize = 4096;

/// The line of the last value. Its buffer grows only if a line is longer than all before it.
#[derive(Drop)]
pub struct JsonLine {
    alloc: Global,
    octets: Vec<u8>,
    room: Room,
}

impl JsonLine {
    /// Returns an empty line, with a buffer of 4096 octets. Fails if an allocation failed.
    pub fn new(alloc: Global) -> Result<JsonLine, AllocError> {
        Ok(JsonLine {
            alloc,
            octets: Vec::with_capacity(alloc, ROOM)?,
            room: Room::new(alloc),
        })
    }

    /// Returns an empty line, with a buffer of this many octets. A line of at most this length,
    /// with at most 16 nested objects, allocates nothing later. Fails if an allocation failed.
    pub fn with_room(alloc: Global, octets: usize) -> Result<JsonLine, AllocError>
        ensures { IfOk result (λ line. octets ≤ vec_capacity line.octets) }
    {
        Ok(JsonLine {
            alloc,
            octets: Vec::with_capacity(alloc, octets)?,
            room: Room::with_room(alloc, octets)?,
        })
    }

    /// Returns the line of a value: its JSON in compact form, and a line feed. It has no other line
    /// feed.
    ///
    /// `OutOfMemory` if an allocation failed. `Kind` for a value that can't be a line, and for one
    /// that prints nothing.
    ///
    /// - its clause: a line is the compact text of one or more tokens of JSON, and a line feed.
    ///   These tokens are read from it again. It is never empty.
    pub fn of<T: Serialize>(&mut self, value: &T) -> Result<&[u8], JsonFault>
        ensures { IfOk result (λ line. IsLine line.now) }
    {
        let mut octets = mem::replace(&mut self.octets, Vec::new(self.alloc));
        octets.clear();
        let mut compact = Compact::new(octets, &mut self.room);
        value.serialize(&mut compact)?;
        self.octets = compact.into_octets()?;
        self.octets.push(b'\n')?;
        Ok(self.octets.as_slice())
    }
}
