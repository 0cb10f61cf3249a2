//! The blocks of a pcapng file. Each is read after its type.

ghost use Rattle.std.specs.Prelude.{◌≡◌, ◌≢◌, ◌-◌, ◌+◌, ◌*◌, ◌^◌, ◌<◌, ◌≤◌, ◌↔◌, IsTrue};
ghost use Rattle.std.specs.Prelude.{IfOk, if◌then◌else◌, MatchOption, MatchResult, Err, vec_capacity};
ghost use Rattle.std.specs.List.{slice_get};
ghost use Rattle.cap_pcap.specs.Blocks.{section_head, section, interface, named, moment};
ghost use Rattle.cap_pcap.specs.Interfaces.{plain};
ghost use Rattle.cap_pcap.specs.Blocks.{FitsRecord, packet, first, simple_length, simple_lengths};
ghost use Rattle.cap_pcap.specs.Blocks.{simple, other, kind_of_block, block_of, magic_of};
ghost use Rattle.cap_pcap.specs.Blocks.{ticks_of_zero};
ghost use Rattle.cap_pcap.specs.Layouts.{IsAnswerOf, number_that};
ghost use Rattle.cap_pcap.specs.Reading.{is_io};
ghost use Rattle.cap_pcap.specs.declared.fault.SourceFault.TheVariants as faults;
ghost use Rattle.its_linkframe.specs.declared.record.CaptureFault.TheVariants as captures;

use crate::fault::SourceFault;
use crate::field::{block_length, end_block, is_block_length, read_u16, read_u32};
use crate::info::{InterfaceHead, InterfaceInfo};
use crate::interface::{Interface, MICRO_TICKS, MICROS, fine_time_of, moment_of};
use crate::octets::{Endianness, u16_at, u32_at};
use crate::options::read_options;
use crate::pcap::LONGEST_CAPTURED;
use crate::record::{FineTime, RecordHeader};
use crate::transfer::{read_exact, read_record_octets};
use byteorder::{BigEndian, ByteOrder};
use cap_linklayers::link_layer;
use its_linkframe::Source;

/// The type of a section header, which is equal in both byte orders.
pub(crate) const SECTION: u32 = 0x0a0d_0d0a;

/// The type of an interface block.
const INTERFACE: u32 = 1;

/// The type of a simple packet block.
const SIMPLE: u32 = 3;

/// The type of an enhanced packet block.
const PACKET: u32 = 6;

/// The magic of a section with the highest octet first, read in that order.
const MAGIC_BIG: u32 = 0x1a2b_3c4d;

/// The magic of a section with the lowest octet first, read with the highest first.
const MAGIC_LITTLE: u32 = 0x4d3c_2b1a;

/// The one major version of a section.
const MAJOR_VERSION: u16 = 1;

/// The least length of a section header, in octets.
const LEAST_SECTION: u32 = 28;

/// The octets of a section header up to its minor version, with the length at its end.
const SECTION_FRONT: usize = 18;

/// The least length of an interface block.
const LEAST_INTERFACE: u32 = 20;

/// The least length of a simple packet block.
const LEAST_SIMPLE: u32 = 16;

/// The least length of an enhanced packet block.
const LEAST_PACKET: u32 = 32;

/// The least length of any other block.
const LEAST: u32 = 12;

/// What a block is.
#[derive(Clone, Copy, Debug, PartialEq, Eq)]
pub(crate) enum Kind {
    /// A section header.
    Section,
    /// An interface.
    Interface,
    /// A packet with nothing but its length on the wire.
    Simple,
    /// A packet with its interface and its time.
    Packet,
    /// Any other.
    Other,
}

/// What was read from a block.
#[derive(Clone, Copy)]
pub(crate) enum Block {
    /// A section begins, with this byte order.
    Section(Endianness),
    /// A further interface of the section.
    Interface(Interface),
    /// A record.
    Record(RecordHeader),
    /// Nothing that is read.
    Other,
}

/// Returns the kind of a block, by the number of its type.
pub(crate) fn kind_of(number: u32) -> Kind
    ensures { result ≡ kind_of_block number }
{
    match number {
        SECTION => Kind::Section,
        INTERFACE => Kind::Interface,
        SIMPLE => Kind::Simple,
        PACKET => Kind::Packet,
        _ => Kind::Other,
    }
}

/// Reads a block after its type, in a section of this byte order with these interfaces. `next` is
/// the number that a further interface gets. The frame of a packet is put into the buffer.
pub(crate) fn read_block<S: Source>(
    source: &mut S,
    kind: Kind,
    order: Endianness,
    next: u32,
    interfaces: &[Interface],
    keep: usize,
    frame: &mut Vec<u8>,
) -> Result<Block, SourceFault>
    requires { S.failed source.old < 2 ^ 64 - 1 }
    ensures answer { IsAnswerOf (block_of order next interfaces.now keep frame.new.items kind)
        (S.remaining source.old) (S.remaining source.new) result }
    ensures counts { S.failed source.new ≡ S.failed source.old + (if is_io result then 1 else 0) }
    ensures memory { keep ≤ vec_capacity frame.old
        → result ≢ Err (faults.Capture captures.NoMemory) }
{
    match kind {
        Kind::Section => section_block(source),
        Kind::Interface => interface_block(source, order, next),
        Kind::Simple => simple_block(source, order, interfaces, keep, frame),
        Kind::Packet => packet_block(source, order, interfaces, keep, frame),
        Kind::Other => other_block(source, order),
    }
}

/// Returns the byte order that a magic stands for.
fn order_in(magic: u32) -> Option<Endianness>
    ensures { MatchOption result ((o : Endianness) → ¬ (magic ≡ magic_of o)) (λ o. magic ≡ magic_of o) }
{
    match magic {
        MAGIC_BIG => Some(Endianness::Big),
        MAGIC_LITTLE => Some(Endianness::Little),
        _ => None,
    }
}

/// Reads the length and the magic of a section header. The magic is checked before the length,
/// since it gives the byte order of the length.
fn read_section_head<S: Source>(source: &mut S) -> Result<(Endianness, u32), SourceFault>
    requires { S.failed source.old < 2 ^ 64 - 1 }
    ensures answer { IsAnswerOf section_head (S.remaining source.old) (S.remaining source.new)
        result }
    ensures fits { IfOk result (λ head. LEAST_SECTION ≤ head.1) }
    ensures counts { S.failed source.new ≡ S.failed source.old + (if is_io result then 1 else 0) }
    ensures memory { result ≢ Err (faults.Capture captures.NoMemory) }
{
    let mut head = [0; 8];
    read_exact(source, &mut head)?;
    let Some(order) = order_in(BigEndian::read_u32(&head[4..])) else {
        return Err(SourceFault::Malformed);
    };
    let length = u32_at(order, &head, 0);
    if !is_block_length(length, LEAST_SECTION) {
        return Err(SourceFault::Malformed);
    }
    Ok((order, length))
}

/// Reads the major version of a section. P2 if it is not 1.
fn read_version<S: Source>(source: &mut S, order: Endianness) -> Result<u16, SourceFault>
    requires { S.failed source.old < 2 ^ 64 - 1 }
    ensures answer { IsAnswerOf (number_that order 2 (λ version. version ≡ 1))
        (S.remaining source.old) (S.remaining source.new) result }
    ensures counts { S.failed source.new ≡ S.failed source.old + (if is_io result then 1 else 0) }
    ensures memory { result ≢ Err (faults.Capture captures.NoMemory) }
{
    let version = read_u16(source, order)?;
    if version != MAJOR_VERSION {
        return Err(SourceFault::Malformed);
    }
    Ok(version)
}

/// Reads a section header after its type, and returns its byte order.
fn section_block<S: Source>(source: &mut S) -> Result<Block, SourceFault>
    requires { S.failed source.old < 2 ^ 64 - 1 }
    ensures answer { IsAnswerOf section (S.remaining source.old) (S.remaining source.new) result }
    ensures counts { S.failed source.new ≡ S.failed source.old + (if is_io result then 1 else 0) }
    ensures memory { result ≢ Err (faults.Capture captures.NoMemory) }
{
    let (order, length) = read_section_head(source)?;
    read_version(source, order)?;
    end_block(source, order, length as usize - SECTION_FRONT, length)?;
    Ok(Block::Section(order))
}

/// Reads the link type and the snap length of the interface with this number.
fn read_plain<S: Source>(
    source: &mut S,
    order: Endianness,
    next: u32,
) -> Result<Interface, SourceFault>
    requires { S.failed source.old < 2 ^ 64 - 1 }
    ensures answer { IsAnswerOf (plain order next) (S.remaining source.old) (S.remaining source.new)
        result }
    ensures counts { S.failed source.new ≡ S.failed source.old + (if is_io result then 1 else 0) }
    ensures memory { result ≢ Err (faults.Capture captures.NoMemory) }
{
    let mut head = [0; 8];
    read_exact(source, &mut head)?;
    let link = u16_at(order, &head, 0);
    Ok(Interface {
        number: next,
        info: InterfaceInfo {
            head: InterfaceHead {
                link,
                resolution: MICROS,
                offset: 0,
            },
            layer: link_layer(u32::from(link)),
            name: None,
        },
        snap: u32_at(order, &head, 4),
        ticks: MICRO_TICKS,
    })
}

/// Reads an interface block after its type, and returns the interface with this number.
fn interface_block<S: Source>(
    source: &mut S,
    order: Endianness,
    next: u32,
) -> Result<Block, SourceFault>
    requires { S.failed source.old < 2 ^ 64 - 1 }
    ensures answer { IsAnswerOf (interface order next) (S.remaining source.old) (S.remaining source.new)
        result }
    ensures counts { S.failed source.new ≡ S.failed source.old + (if is_io result then 1 else 0) }
    ensures memory { result ≢ Err (faults.Capture captures.NoMemory) }
{
    let length = block_length(source, order, LEAST_INTERFACE)?;
    let plain = read_plain(source, order, next)?;
    let (left, interface) = read_options(
        source,
        order,
        (length - LEAST_INTERFACE) as usize,
        plain,
    )?;
    end_block(source, order, left, length)?;
    Ok(Block::Interface(interface))
}

/// Reads the interface number of a packet, and returns the interface. P2 if there is no such
/// interface.
fn read_interface<S: Source>(
    source: &mut S,
    order: Endianness,
    interfaces: &[Interface],
) -> Result<Interface, SourceFault>
    requires { S.failed source.old < 2 ^ 64 - 1 }
    ensures answer { IsAnswerOf (named order interfaces.now) (S.remaining source.old)
        (S.remaining source.new) result }
    ensures counts { S.failed source.new ≡ S.failed source.old + (if is_io result then 1 else 0) }
    ensures memory { result ≢ Err (faults.Capture captures.NoMemory) }
{
    let number = read_u32(source, order)?;
    match interfaces.get(number as usize) {
        Some(interface) => Ok(*interface),
        None => Err(SourceFault::Malformed),
    }
}

/// Reads the time of a packet in milliseconds, and the part below a millisecond. P2 if the time is
/// below 0, or 2^64 or more.
fn read_moment<S: Source>(
    source: &mut S,
    order: Endianness,
    interface: &Interface,
) -> Result<(u64, FineTime), SourceFault>
    requires { S.failed source.old < 2 ^ 64 - 1 }
    ensures answer { IsAnswerOf (moment order interface.now) (S.remaining source.old)
        (S.remaining source.new) result }
    ensures counts { S.failed source.new ≡ S.failed source.old + (if is_io result then 1 else 0) }
    ensures memory { result ≢ Err (faults.Capture captures.NoMemory) }
{
    let mut octets = [0; 8];
    read_exact(source, &mut octets)?;
    let timestamp = timestamp_of(u32_at(order, &octets, 0), u32_at(order, &octets, 4));
    match moment_of(interface, timestamp) {
        Some(moment) => Ok((moment, fine_time_of(interface, timestamp))),
        None => Err(SourceFault::Malformed),
    }
}

/// Joins the upper and the lower 32 bits of a timestamp.
fn timestamp_of(high: u32, low: u32) -> u64
    ensures { result ≡ high * 2 ^ 32 + low }
{
    u64::from(high) * (1 << 32) + u64::from(low)
}

/// Whether a record may have this many octets, if its block has `room` octets for them.
fn fits_record(captured: u32, room: u32) -> bool
    ensures { IsTrue result ↔ FitsRecord room captured }
{
    captured <= LONGEST_CAPTURED && captured <= room
}

/// Reads the captured length of a packet whose block has `room` octets for it. P2 if the length is
/// over `room` or over 262144.
fn read_captured<S: Source>(
    source: &mut S,
    order: Endianness,
    room: u32,
) -> Result<u32, SourceFault>
    requires { S.failed source.old < 2 ^ 64 - 1 }
    ensures answer { IsAnswerOf (number_that order 4 (FitsRecord room)) (S.remaining source.old)
        (S.remaining source.new) result }
    ensures fits { IfOk result (FitsRecord room) }
    ensures counts { S.failed source.new ≡ S.failed source.old + (if is_io result then 1 else 0) }
    ensures memory { result ≢ Err (faults.Capture captures.NoMemory) }
{
    let captured = read_u32(source, order)?;
    if !fits_record(captured, room) {
        return Err(SourceFault::Malformed);
    }
    Ok(captured)
}

/// Reads an enhanced packet block after its type, and returns its record.
fn packet_block<S: Source>(
    source: &mut S,
    order: Endianness,
    interfaces: &[Interface],
    keep: usize,
    frame: &mut Vec<u8>,
) -> Result<Block, SourceFault>
    requires { S.failed source.old < 2 ^ 64 - 1 }
    ensures answer { IsAnswerOf (packet order interfaces.now keep frame.new.items)
        (S.remaining source.old) (S.remaining source.new) result }
    ensures counts { S.failed source.new ≡ S.failed source.old + (if is_io result then 1 else 0) }
    ensures memory { keep ≤ vec_capacity frame.old
        → result ≢ Err (faults.Capture captures.NoMemory) }
{
    let length = block_length(source, order, LEAST_PACKET)?;
    let room = length - LEAST_PACKET;
    let interface = read_interface(source, order, interfaces)?;
    let (moment, fine) = read_moment(source, order, &interface)?;
    let captured = read_captured(source, order, room)?;
    let wire = read_u32(source, order)?;
    read_record_octets(source, captured as usize, keep, frame)?;
    end_block(source, order, (room - captured) as usize, length)?;
    Ok(Block::Record(RecordHeader {
        moment,
        fine,
        interface: interface.number,
        captured,
        wire,
        layer: interface.info.layer,
    }))
}

/// Returns the first interface of a section. P2 if the section has no interface.
fn first_of(interfaces: &[Interface]) -> Result<Interface, SourceFault>
    ensures { MatchResult result (λ i. slice_get interfaces.now 0 ≡ Some i)
        (λ f. (f ≡ faults.Malformed) × (slice_get interfaces.now 0 ≡ None)) }
{
    match interfaces.first() {
        Some(interface) => Ok(*interface),
        None => Err(SourceFault::Malformed),
    }
}

/// Reads the length on the wire of a simple packet, and returns it with the captured length. P2 if
/// the captured length is over 262144, or over the `room` octets that its block has for it.
fn read_lengths<S: Source>(
    source: &mut S,
    order: Endianness,
    interface: &Interface,
    room: u32,
) -> Result<(u32, u32), SourceFault>
    requires { S.failed source.old < 2 ^ 64 - 1 }
    ensures answer { IsAnswerOf (simple_lengths order interface.now room) (S.remaining source.old)
        (S.remaining source.new) result }
    ensures fits { IfOk result (λ lengths. FitsRecord room lengths.1) }
    ensures counts { S.failed source.new ≡ S.failed source.old + (if is_io result then 1 else 0) }
    ensures memory { result ≢ Err (faults.Capture captures.NoMemory) }
{
    let wire = read_u32(source, order)?;
    let captured = captured_in(wire, interface.snap);
    if !fits_record(captured, room) {
        return Err(SourceFault::Malformed);
    }
    Ok((wire, captured))
}

/// Reads a simple packet block after its type, and returns its record: one of the first interface,
/// at time 0.
fn simple_block<S: Source>(
    source: &mut S,
    order: Endianness,
    interfaces: &[Interface],
    keep: usize,
    frame: &mut Vec<u8>,
) -> Result<Block, SourceFault>
    requires { S.failed source.old < 2 ^ 64 - 1 }
    ensures answer { IsAnswerOf (simple order interfaces.now keep frame.new.items)
        (S.remaining source.old) (S.remaining source.new) result }
    ensures counts { S.failed source.new ≡ S.failed source.old + (if is_io result then 1 else 0) }
    ensures memory { keep ≤ vec_capacity frame.old
        → result ≢ Err (faults.Capture captures.NoMemory) }
{
    let length = block_length(source, order, LEAST_SIMPLE)?;
    let room = length - LEAST_SIMPLE;
    let interface = first_of(interfaces)?;
    let (wire, captured) = read_lengths(source, order, &interface, room)?;
    read_record_octets(source, captured as usize, keep, frame)?;
    end_block(source, order, (room - captured) as usize, length)?;
    Ok(Block::Record(RecordHeader {
        moment: 0,
        fine: FineTime {
            nanos: 0,
            finer: false,
            ticks: ticks_of_zero(interface.info.head.offset),
        },
        interface: interface.number,
        captured,
        wire,
        layer: interface.info.layer,
    }))
}

/// The ticks of a simple packet, whose time is 0. `None` if its interface has an offset that is not
/// 0.
fn ticks_of_zero(offset: u64) -> Option<u64>
    ensures { result ≡ ticks_of_zero offset }
{
    if offset == 0 { Some(0) } else { None }
}

/// How many octets of a frame a simple packet has: at most the snap length, if that is not 0.
fn captured_in(wire: u32, snap: u32) -> u32
    ensures { result ≡ simple_length snap wire }
{
    if snap == 0 { wire } else { wire.min(snap) }
}

/// Skips a block of another kind, after its type.
fn other_block<S: Source>(source: &mut S, order: Endianness) -> Result<Block, SourceFault>
    requires { S.failed source.old < 2 ^ 64 - 1 }
    ensures answer { IsAnswerOf (other order) (S.remaining source.old) (S.remaining source.new)
        result }
    ensures counts { S.failed source.new ≡ S.failed source.old + (if is_io result then 1 else 0) }
    ensures memory { result ≢ Err (faults.Capture captures.NoMemory) }
{
    let length = block_length(source, order, LEAST)?;
    end_block(source, order, (length - LEAST) as usize, length)?;
    Ok(Block::Other)
}
