//! Reads the table `moves`: how the moves of a file are read.

ghost use Rattle.std.specs.Prelude.{◌≤◌, ◌^◌, IfOk};
ghost use Rattle.its_words.specs.Fields.{IsNumberOr};
ghost use Rattle.its_words.specs.declared.keys.key.Key.TheVariants as keys;
ghost use Rattle.sim_settings.specs.Moves.{AreMidOctets, ArePorts, IsMid, IsPort, SaysMoves};
ghost use Rattle.sim_settings.specs.Moves.{SaysPorts};
ghost use Rattle.toml.specs.Data.{no_members};
ghost use Rattle.toml.specs.View.{items_view, table_view, view};

use crate::air_keys::read_contends;
use crate::moves::Moves;
use crate::toml_fields::{TomlFields, items_of};
use its_gnvalue::Mac;
use its_words::keys::{Fields, Key, KeyFault, Wrong, octets_into, whole_or};
use std::alloc::Global;
use toml::{Table, Value};

/// The default time after which a station departs, in milliseconds.
const USUAL_TIME: i64 = 1000;

/// The default size of the location table.
const USUAL_ENTRIES: i64 = 1024;

/// The default length of the duplicate packet lists.
const USUAL_NUMBERS: i64 = 8;

/// The default of the first MID.
const USUAL_MID: [u8; 6] = [0x02, 0x01, 0x00, 0x00, 0x00, 0x01];

/// How many ports there are at most.
const MOST_PORTS: usize = 64;

impl Moves {
    /// Returns the moves of an empty table. `contends` is the value of the radio model.
    pub fn usual(alloc: Global, contends: bool) -> Moves
        ensures { SaysMoves contends no_members result }
    {
        Moves {
            begin: 0,
            gone: USUAL_TIME as u32,
            mid: Mac::from_octets(USUAL_MID),
            capacity: USUAL_ENTRIES as u16,
            remember: USUAL_NUMBERS as u8,
            ports: Vec::new(alloc),
            contends,
        }
    }
}

/// Reads `begin` (default 0), `gone` (1000), `mid` (020100000001), `capacity` (1024), `remember`
/// (8), `ports` (none) and `contention` (`contends`, the value of the radio model), checked in this
/// order.
pub fn read_moves(alloc: Global, table: &Table, contends: bool) -> Result<Moves, KeyFault>
    ensures { IfOk result (SaysMoves contends (table_view table.now)) }
{
    let fields = TomlFields(table);
    Ok(Moves {
        begin: read_begin(&fields)?,
        gone: read_time(&fields)?,
        mid: read_mid(&fields)?,
        capacity: read_capacity(&fields)?,
        remember: read_remember(&fields)?,
        ports: read_ports(alloc, table)?,
        contends: read_contends(&fields, contends)?,
    })
}

/// Reads the time at which the run begins.
fn read_begin<F: Fields>(fields: &F) -> Result<u64, KeyFault>
    ensures says { IfOk result (IsNumberOr (F.values fields.now) keys.Begin 0) }
    ensures most { IfOk result (λ begin. begin ≤ 2 ^ 62) }
{
    Ok(whole_or(fields, Key::Begin, 0)? as u64)
}

/// Reads after how long a station without a row departs.
fn read_time<F: Fields>(fields: &F) -> Result<u32, KeyFault>
    ensures says { IfOk result (IsNumberOr (F.values fields.now) keys.Gone 1000) }
    ensures least { IfOk result (λ gone. 1 ≤ gone) }
{
    Ok(whole_or(fields, Key::Gone, USUAL_TIME)? as u32)
}

/// Reads the size of the location table.
fn read_capacity<F: Fields>(fields: &F) -> Result<u16, KeyFault>
    ensures says { IfOk result (IsNumberOr (F.values fields.now) keys.Capacity 1024) }
    ensures least { IfOk result (λ capacity. 1 ≤ capacity) }
    ensures most { IfOk result (λ capacity. capacity ≤ 4096) }
{
    Ok(whole_or(fields, Key::Capacity, USUAL_ENTRIES)? as u16)
}

/// Reads the length of the duplicate packet lists.
fn read_remember<F: Fields>(fields: &F) -> Result<u8, KeyFault>
    ensures says { IfOk result (IsNumberOr (F.values fields.now) keys.Remember 8) }
    ensures least { IfOk result (λ remember. 1 ≤ remember) }
    ensures most { IfOk result (λ remember. remember ≤ 64) }
{
    Ok(whole_or(fields, Key::Remember, USUAL_NUMBERS)? as u8)
}

/// Reads the first MID, of 12 hexadecimal digits.
fn read_mid<F: Fields>(fields: &F) -> Result<Mac, KeyFault>
    ensures { IfOk result (IsMid (F.values fields.now)) }
{
    let mid = Mac::from_octets(mid_octets(fields)?);
    if mid.is_group() {
        return Err(KeyFault::Refused(Key::Mid, Wrong::Value));
    }
    Ok(mid)
}

/// Reads the octets of the first MID.
fn mid_octets<F: Fields>(fields: &F) -> Result<[u8; 6], KeyFault>
    ensures { IfOk result (AreMidOctets (F.values fields.now)) }
{
    let mut octets = USUAL_MID;
    if fields.has(Key::Mid.word()) {
        octets_into(fields, Key::Mid, &mut octets)?;
    }
    Ok(octets)
}

/// Reads the ports that are opened.
fn read_ports(alloc: Global, table: &Table) -> Result<Vec<u16>, KeyFault>
    ensures { IfOk result (λ ports. SaysPorts (table_view table.now) ports.items) }
{
    match items_of(table, Key::Ports.word()) {
        Some(items) => ports_in(alloc, items),
        None => Err(KeyFault::Refused(Key::Ports, Wrong::Kind)),
    }
}

/// Reads these values as ports.
fn ports_in(alloc: Global, items: &[Value]) -> Result<Vec<u16>, KeyFault>
    ensures { IfOk result (λ ports. ArePorts (items_view items.now) ports.items) }
{
    let mut ports = Vec::new(alloc);
    for item in items {
        let port = port_in(item)?;
        if ports.len() >= MOST_PORTS || ports.contains(&port) {
            return Err(KeyFault::Refused(Key::Ports, Wrong::Value));
        }
        match ports.push(port) {
            Ok(()) => {}
            Err(_) => return Err(KeyFault::OutOfMemory),
        }
    }
    Ok(ports)
}

/// Reads a value as a port.
fn port_in(item: &Value) -> Result<u16, KeyFault>
    ensures { IfOk result (IsPort (view item.now)) }
{
    match item.as_integer() {
        Some(port) if 0 <= port && port <= 65535 => Ok(port as u16),
        _ => Err(KeyFault::Refused(Key::Ports, Wrong::Value)),
    }
}
