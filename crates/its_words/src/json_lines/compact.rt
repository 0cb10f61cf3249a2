//! The tokens of a value, in compact form.

ghost use Rattle.std.specs.Prelude.{◌≡◌, [], IfOk};
ghost use Rattle.its_words.specs.JsonLines.{IsCompact};

use crate::json_lines::fault::JsonFault;
use json::Writer;
use serde::{Case, Serializer};
use std::alloc::{AllocError, Global};
use std::fmt::{Display, Write};
use std::str;

/// What is kept from line to line.
#[derive(Drop)]
pub(crate) struct Room {
    /// The digits of octets.
    digits: Vec<u8>,
    /// What a value prints.
    text: String,
    /// Whether each open map has braces of its own.
    braces: Vec<bool>,
    /// Whether the members of the next map go into the one that is open.
    flattens: bool,
}

impl Room {
    pub(crate) fn new(alloc: Global) -> Room {
        Room {
            digits: Vec::new(alloc),
            text: String::new(alloc),
            braces: Vec::new(alloc),
            flattens: false,
        }
    }

    /// Returns buffers for texts and digits of this many octets, and for 16 open maps.
    pub(crate) fn with_room(alloc: Global, octets: usize) -> Result<Room, AllocError> {
        Ok(Room {
            digits: Vec::with_capacity(alloc, octets)?,
            text: String::with_capacity(alloc, octets)?,
            braces: Vec::with_capacity(alloc, MAPS)?,
            flattens: false,
        })
    }
}

/// How many maps may be open before the buffer has to grow.
const MAPS: usize = 16;

/// A value that is being written.
#[derive(Drop)]
pub(crate) struct Compact<'a> {
    out: Writer,
    room: &'a mut Room,
    ghost alone: { out.before ≡ [] },
}

impl<'a> Compact<'a> {
    /// Begins a value in a buffer, which has to be empty.
    pub(crate) fn new(octets: Vec<u8>, room: &'a mut Room) -> Compact<'a>
        requires { octets.items ≡ [] }
    {
        room.braces.clear();
        room.flattens = false;
        Compact {
            out: Writer::new(octets),
            room,
        }
    }

    /// Returns the text of what was written. `Kind` if nothing was: a line has a value.
    pub(crate) fn into_octets(self) -> Result<Vec<u8>, JsonFault>
        ensures { IfOk result (λ octets. IsCompact octets.items) }
    {
        let Compact { out, .. } = self;
        let octets = out.into_inner();
        if octets.is_empty() {
            return Err(JsonFault::Kind);
        }
        Ok(octets)
    }
}

impl Serializer for Compact<'_> {
    type Error = JsonFault;

    fn bool(&mut self, v: bool) -> Result<(), JsonFault> {
        Ok(self.out.boolean(v)?)
    }

    fn i64(&mut self, v: i64) -> Result<(), JsonFault> {
        Ok(self.out.i64(v)?)
    }

    fn u64(&mut self, v: u64) -> Result<(), JsonFault> {
        Ok(self.out.u64(v)?)
    }

    fn i128(&mut self, _v: i128) -> Result<(), JsonFault> {
        Err(JsonFault::Kind)
    }

    fn u128(&mut self, _v: u128) -> Result<(), JsonFault> {
        Err(JsonFault::Kind)
    }

    fn f32(&mut self, _v: f32) -> Result<(), JsonFault> {
        Err(JsonFault::Kind)
    }

    fn f64(&mut self, _v: f64) -> Result<(), JsonFault> {
        Err(JsonFault::Kind)
    }

    fn char(&mut self, _v: char) -> Result<(), JsonFault> {
        Err(JsonFault::Kind)
    }

    fn str(&mut self, v: &str) -> Result<(), JsonFault> {
        Ok(self.out.string(v)?)
    }

    /// Writes octets as a text of hexadecimal digits.
    fn bytes(&mut self, v: &[u8]) -> Result<(), JsonFault> {
        let Room { digits, .. } = &mut *self.room;
        digits.clear();
        digits.resize(v.len().saturating_mul(2), 0)?;
        hex::encode_to_slice(v, digits).map_err(|_| JsonFault::OutOfMemory)?;
        match str::from_utf8(digits) {
            Ok(text) => Ok(self.out.string(text)?),
            Err(_) => Err(JsonFault::Kind),
        }
    }

    /// Writes nothing if it is a flattened member of the open map, and `null` otherwise.
    fn unit(&mut self) -> Result<(), JsonFault> {
        if self.room.flattens {
            self.room.flattens = false;
            return Ok(());
        }
        Ok(self.out.null()?)
    }

    fn str_cased(&mut self, name: &str, case: Case) -> Result<(), JsonFault> {
        if case != Case::AsIs {
            return Err(JsonFault::Kind);
        }
        self.str(name)
    }

    fn begin_seq(&mut self, _len: Option<usize>) -> Result<(), JsonFault> {
        Ok(self.out.begin_array()?)
    }

    fn end_seq(&mut self) -> Result<(), JsonFault> {
        Ok(self.out.end_array()?)
    }

    fn begin_map(&mut self, _len: Option<usize>) -> Result<(), JsonFault> {
        let braces = !self.room.flattens;
        self.room.flattens = false;
        self.room.braces.push(braces)?;
        if braces {
            self.out.begin_object()?;
        }
        Ok(())
    }

    fn end_map(&mut self) -> Result<(), JsonFault> {
        if self.room.braces.pop() == Some(true) {
            self.out.end_object()?;
        }
        Ok(())
    }

    fn key_cased(&mut self, name: &str, case: Case) -> Result<(), JsonFault> {
        if case != Case::AsIs {
            return Err(JsonFault::Kind);
        }
        Ok(self.out.key(name)?)
    }

    fn variant_key(&mut self, _name: &str, _case: Case) -> Result<(), JsonFault> {
        Err(JsonFault::Kind)
    }

    fn begin_key(&mut self) -> Result<(), JsonFault> {
        Err(JsonFault::Kind)
    }

    fn end_key(&mut self) -> Result<(), JsonFault> {
        Err(JsonFault::Kind)
    }

    fn flatten_next(&mut self) -> Result<(), JsonFault> {
        self.room.flattens = true;
        Ok(())
    }

    fn custom(&self, _message: &str) -> JsonFault {
        JsonFault::Kind
    }

    fn collect_str<T: Display>(&mut self, value: &T) -> Result<(), JsonFault> {
        let Room { text, .. } = &mut *self.room;
        text.clear();
        write!(text, "{value}").map_err(|_| JsonFault::OutOfMemory)?;
        Ok(self.out.string(text.as_str())?)
    }
}
