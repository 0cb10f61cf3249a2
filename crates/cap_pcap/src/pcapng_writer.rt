//! Writing a pcapng file.

ghost use Rattle.std.specs.Prelude.{◌≡◌, ◌-◌, ◌+◌, ◌/◌, ◌%◌, ◌^◌, ◌<◌, ◌≤◌, ◌↔◌, ◌||◌, ◌++◌};
ghost use Rattle.std.specs.Prelude.{false, OnOk, IfErr, Err, IsTrue, if◌then◌else◌, length};
ghost use Rattle.std.specs.Prelude.{◌∷◌, [], take};
ghost use Rattle.std.specs.Io.KnownBytes.{Appends};
ghost use Rattle.byteorder.specs.Endian.{little_bytes};
ghost use Rattle.cap_pcap.specs.PcapngWritten.{padding_size, section_octets, interface_front};
ghost use Rattle.cap_pcap.specs.PcapngWritten.{interface_end, name_head, interface_octets};
ghost use Rattle.cap_pcap.specs.PcapngWritten.{resolution_octets, offset_octets};
ghost use Rattle.cap_pcap.specs.PcapngWritten.{name_head_room, offset_room};
ghost use Rattle.cap_pcap.specs.PcapngWritten.{packet_size, packet_head, packet_octets};
ghost use Rattle.cap_pcap.specs.PcapngWritten.{enhanced_octets, simple_head, simple_octets};
ghost use Rattle.cap_pcap.specs.PcapngWritten.{simple_size, HasBlock};
ghost use Rattle.cap_pcap.specs.PcapngWritten.{IsSectionFault, IsInterfaceFault, IsPacketFault};
ghost use Rattle.cap_pcap.specs.Writing.{is_io_failure, IsStartFault};
ghost use Rattle.cap_pcap.specs.declared.put_fault.PutFault.TheVariants as put_faults;

use crate::info::InterfaceHead;
use crate::output::Output;
use crate::pcap::LONGEST_CAPTURED;
use crate::put_fault::PutFault;
use byteorder::{ByteOrder, LittleEndian};
use its_linkframe::Sink;
use std::marker::Model;

/// A section header: version 1.0, section length -1, no options.
const SECTION: [u8; 28] = [
    0x0a, 0x0d, 0x0d, 0x0a, 28, 0, 0, 0, 0x4d, 0x3c, 0x2b, 0x1a, 1, 0, 0, 0, 255, 255, 255, 255,
    255, 255, 255, 255, 28, 0, 0, 0,
];

/// The type of an interface block.
const INTERFACE: u32 = 1;

/// The type of a simple packet block.
const SIMPLE: u32 = 3;

/// The type of an enhanced packet block.
const PACKET: u32 = 6;

/// The option `if_name`.
const NAME: u16 = 2;

/// The option `if_tsresol`.
const RESOLUTION: u16 = 9;

/// The option `if_tsoffset`.
const OFFSET: u16 = 14;

/// The octets of an interface before its options.
const INTERFACE_FRONT: usize = 16;

/// The octets of an interface with neither a name nor an offset.
const PLAIN_SIZE: u32 = 32;

/// The octets of an option before its value.
const OPTION_HEAD: u32 = 4;

/// The octets of the option `if_tsoffset`.
const OFFSET_SIZE: u32 = 12;

/// The octets of an enhanced packet before its frame.
const HEAD: usize = 28;

/// The octets of an enhanced packet without its frame and padding.
const PACKET_SIZE: u32 = 32;

/// The octets of a simple packet before its frame.
const SIMPLE_HEAD: usize = 12;

/// The octets of a simple packet without its frame and padding.
const SIMPLE_SIZE: u32 = 16;

/// Octets of padding.
const PADDING: [u8; 3] = [0; 3];

/// The most octets of a packet after its frame.
const TAIL: usize = 7;

/// Writes a pcapng file of one section: its header, its interfaces, then its records, one after the
/// other. It allocates no memory.
#[derive(Drop)]
pub struct PcapngWriter<W: Sink> {
    output: Output<W>,
    interfaces: u32,
}

impl<W: Sink> Model for PcapngWriter<W> {
    ghost use Rattle.cap_pcap.specs.PcapngWritten.{Writing, numbered};

    ghost Value = { Writing };

    ghost view = { λ w. numbered w.interfaces w.output };
}

impl<W: Sink> PcapngWriter<W> {
    /// Returns a writer that appends to what the sink has. Nothing is written yet.
    pub fn new(sink: W) -> PcapngWriter<W>
        requires { W.failed sink < 2 ^ 64 - 1 }
        ensures { result ≡ record {
          failed = false;
          interfaces = 0;
          contents = W.contents sink;
          failures = W.failed sink;
        } }
    {
        PcapngWriter {
            output: Output::new(sink),
            interfaces: 0,
        }
    }

    /// Writes the section header. It has to be the first call.
    pub fn start(&mut self) -> Result<(), PutFault>
        ensures stored { OnOk result (Appends self.old.contents self.new.contents section_octets) }
        ensures same { OnOk result (self.new.interfaces ≡ self.old.interfaces) }
        ensures fault { IfErr result (IsSectionFault self.old self.new) }
        ensures counts { self.new.failures
            ≡ self.old.failures + (if is_io_failure result then 1 else 0) }
        ensures failed { (result ≡ Err put_faults.Failed) ↔ IsTrue self.old.failed }
        ensures breaks { self.new.failed ≡ (self.old.failed || is_io_failure result) }
    {
        self.output.write(&[&SECTION])
    }

    /// Writes an interface with this head and this name, or with none if the name is empty. Its
    /// number is how many there are before it. A file has at most 2^32 - 1 of them; that is checked
    /// before a name of more than 65535 octets is refused.
    pub fn add_interface(&mut self, head: InterfaceHead, name: &[u8]) -> Result<(), PutFault>
        ensures stored { OnOk result
            (Appends self.old.contents self.new.contents (interface_octets head name.now)) }
        ensures fits { OnOk result ((self.old.interfaces < 2 ^ 32 - 1)
            × (length name.now ≤ 65535)) }
        ensures added { OnOk result (self.new.interfaces ≡ self.old.interfaces + 1) }
        ensures fault { IfErr result (IsInterfaceFault head name.now self.old self.new) }
        ensures counts { self.new.failures
            ≡ self.old.failures + (if is_io_failure result then 1 else 0) }
        ensures failed { (result ≡ Err put_faults.Failed) ↔ IsTrue self.old.failed }
        ensures breaks { self.new.failed ≡ (self.old.failed || is_io_failure result) }
    {
        self.output.check()?;
        if self.interfaces == u32::MAX {
            return Err(PutFault::Interface);
        }
        let Ok(size) = u16::try_from(name.len()) else {
            return Err(PutFault::Name);
        };
        match write_interface(&mut self.output, head, name, size) {
            Ok(()) => {
                self.interfaces += 1;
                Ok(())
            }
            Err(fault) => Err(fault),
        }
    }

    /// Writes a whole record of these octets for this interface, whose ticks the timestamp counts.
    /// Without ticks it is a simple packet, which the format has only for the first interface. The
    /// first fault is returned: an interface that was not written, then more than 262144 octets,
    /// then missing ticks.
    pub fn put(&mut self, interface: u32, ticks: Option<u64>, frame: &[u8]) -> Result<(), PutFault>
        ensures stored { OnOk result (Appends self.old.contents self.new.contents
            (packet_octets interface ticks frame.now)) }
        ensures fits { OnOk result ((interface < self.old.interfaces)
            × (length frame.now ≤ LONGEST_CAPTURED) × HasBlock interface ticks) }
        ensures same { self.new.interfaces ≡ self.old.interfaces }
        ensures fault { IfErr result
            (IsPacketFault interface ticks frame.now self.old self.new) }
        ensures counts { self.new.failures
            ≡ self.old.failures + (if is_io_failure result then 1 else 0) }
        ensures failed { (result ≡ Err put_faults.Failed) ↔ IsTrue self.old.failed }
        ensures breaks { self.new.failed ≡ (self.old.failed || is_io_failure result) }
    {
        self.output.check()?;
        if interface >= self.interfaces {
            return Err(PutFault::Interface);
        }
        if frame.len() > LONGEST_CAPTURED as usize {
            return Err(PutFault::Length);
        }
        match ticks {
            Some(ticks) => write_enhanced(&mut self.output, interface, ticks, frame),
            None if interface == 0 => write_simple(&mut self.output, frame),
            None => Err(PutFault::Moment),
        }
    }

    /// Returns the sink, with what was written.
    pub fn into_inner(self) -> W
        ensures contents { W.contents result ≡ self.contents }
        ensures failures { W.failed result ≡ self.failures }
    {
        self.output.into_inner()
    }
}

/// How many octets of padding follow this many octets.
fn padding_after(size: u32) -> u32
    ensures value { result ≡ padding_size size }
    ensures few { result < 4 }
{
    (4 - size % 4) % 4
}

/// What goes before the options of an interface.
#[tactic(auto, unfolding(crate::specs::PcapngWritten::interface_front))]
fn front_for(link: u16, size: u32) -> [u8; INTERFACE_FRONT]
    ensures { result ≡ interface_front link size }
{
    let mut front = [0; INTERFACE_FRONT];
    LittleEndian::write_u32(&mut front, INTERFACE);
    LittleEndian::write_u32(&mut front[4..], size);
    LittleEndian::write_u16(&mut front[8..], link);
    LittleEndian::write_u32(&mut front[12..], LONGEST_CAPTURED);
    front
}

/// The option of a resolution.
#[tactic(auto, unfolding(crate::specs::PcapngWritten::resolution_octets))]
fn resolution_for(resolution: u8) -> [u8; 8]
    ensures { result ≡ resolution_octets resolution }
{
    let mut option = [0; 8];
    LittleEndian::write_u16(&mut option, RESOLUTION);
    LittleEndian::write_u16(&mut option[2..], 1);
    LittleEndian::write_u32(&mut option[4..], u32::from(resolution));
    option
}

/// The option of an offset.
#[tactic(auto, unfolding(crate::specs::PcapngWritten::offset_octets))]
fn offset_for(offset: u64) -> [u8; 12]
    ensures { result ≡ offset_octets offset }
{
    let mut option = [0; 12];
    LittleEndian::write_u16(&mut option, OFFSET);
    LittleEndian::write_u16(&mut option[2..], 8);
    LittleEndian::write_u64(&mut option[4..], offset);
    option
}

/// The end of the options, and the size of the block.
#[tactic(auto, unfolding(crate::specs::PcapngWritten::interface_end))]
fn end_for(size: u32) -> [u8; 8]
    ensures { result ≡ interface_end size }
{
    let mut end = [0; 8];
    LittleEndian::write_u32(&mut end[4..], size);
    end
}

/// How many octets the option of a name has before the name: none if there is no name.
fn name_head_size(size: u16) -> u32
    ensures { result ≡ name_head_room size }
{
    if size == 0 { 0 } else { OPTION_HEAD }
}

/// How many octets the option of an offset has: none if it is 0.
fn offset_size(offset: u64) -> u32
    ensures { result ≡ offset_room offset }
{
    if offset == 0 { 0 } else { OFFSET_SIZE }
}

/// The option of a name, up to the name.
#[tactic(auto, unfolding(crate::specs::PcapngWritten::name_head))]
fn name_head_for(size: u16) -> [u8; 4]
    ensures { result ≡ name_head size }
{
    let mut head = [0; 4];
    LittleEndian::write_u16(&mut head, NAME);
    LittleEndian::write_u16(&mut head[2..], size);
    head
}

/// Writes an interface, with the options of a name that isn't empty, of its ticks, and of an offset
/// that isn't 0.
fn write_interface<W: Sink>(
    output: &mut Output<W>,
    head: InterfaceHead,
    name: &[u8],
    size: u16,
) -> Result<(), PutFault>
    requires { size ≡ length name.now }
    ensures stored { OnOk result
        (Appends output.old.contents output.new.contents (interface_octets head name.now)) }
    ensures fault { IfErr result
        (IsStartFault (interface_octets head name.now) output.old output.new) }
    ensures counts { output.new.failures
        ≡ output.old.failures + (if is_io_failure result then 1 else 0) }
    ensures failed { (result ≡ Err put_faults.Failed) ↔ IsTrue output.old.failed }
    ensures breaks { output.new.failed ≡ (output.old.failed || is_io_failure result) }
{
    let (before, after) = (name_head_size(size), offset_size(head.offset));
    let padding = padding_after(u32::from(size));
    let block = PLAIN_SIZE + (before + u32::from(size) + padding) + after;
    let front = front_for(head.link, block);
    let name_head = name_head_for(size);
    let offset = offset_for(head.offset);
    output.write(&[
        &front,
        &name_head[..before as usize],
        name,
        &PADDING[..padding as usize],
        &resolution_for(head.resolution),
        &offset[..after as usize],
        &end_for(block),
    ])
}

/// Writes an enhanced packet of this interface, with this timestamp.
fn write_enhanced<W: Sink>(
    output: &mut Output<W>,
    interface: u32,
    ticks: u64,
    frame: &[u8],
) -> Result<(), PutFault>
    requires { length frame.now ≤ LONGEST_CAPTURED }
    ensures stored { OnOk result (Appends output.old.contents output.new.contents
        (enhanced_octets interface ticks frame.now)) }
    ensures fault { IfErr result
        (IsStartFault (enhanced_octets interface ticks frame.now) output.old output.new) }
    ensures counts { output.new.failures
        ≡ output.old.failures + (if is_io_failure result then 1 else 0) }
    ensures failed { (result ≡ Err put_faults.Failed) ↔ IsTrue output.old.failed }
    ensures breaks { output.new.failed ≡ (output.old.failed || is_io_failure result) }
{
    let size = frame.len() as u32;
    let padding = padding_after(size);
    let block = PACKET_SIZE + (size + padding);
    let head = head_for(interface, ticks, block, size);
    let mut tail = [0; TAIL];
    output.write(&[&head, frame, tail_in(&mut tail, padding, block)])
}

/// Writes a simple packet.
fn write_simple<W: Sink>(output: &mut Output<W>, frame: &[u8]) -> Result<(), PutFault>
    requires { length frame.now ≤ LONGEST_CAPTURED }
    ensures stored { OnOk result
        (Appends output.old.contents output.new.contents (simple_octets frame.now)) }
    ensures fault { IfErr result
        (IsStartFault (simple_octets frame.now) output.old output.new) }
    ensures counts { output.new.failures
        ≡ output.old.failures + (if is_io_failure result then 1 else 0) }
    ensures failed { (result ≡ Err put_faults.Failed) ↔ IsTrue output.old.failed }
    ensures breaks { output.new.failed ≡ (output.old.failed || is_io_failure result) }
{
    let size = frame.len() as u32;
    let padding = padding_after(size);
    let block = SIMPLE_SIZE + (size + padding);
    let head = simple_head_for(block, size);
    let mut tail = [0; TAIL];
    output.write(&[&head, frame, tail_in(&mut tail, padding, block)])
}

/// What goes before the frame of a simple packet.
#[tactic(auto, unfolding(crate::specs::PcapngWritten::simple_head))]
fn simple_head_for(block: u32, size: u32) -> [u8; SIMPLE_HEAD]
    requires { block ≡ simple_size size }
    ensures { result ≡ simple_head size }
{
    let mut head = [0; SIMPLE_HEAD];
    LittleEndian::write_u32(&mut head, SIMPLE);
    LittleEndian::write_u32(&mut head[4..], block);
    LittleEndian::write_u32(&mut head[8..], size);
    head
}

/// What goes before the frame of an enhanced packet.
#[tactic(auto, unfolding(crate::specs::PcapngWritten::packet_head))]
fn head_for(interface: u32, ticks: u64, block: u32, size: u32) -> [u8; HEAD]
    requires { block ≡ packet_size size }
    ensures { result ≡ packet_head interface ticks size }
{
    let mut head = [0; HEAD];
    LittleEndian::write_u32(&mut head, PACKET);
    LittleEndian::write_u32(&mut head[4..], block);
    LittleEndian::write_u32(&mut head[8..], interface);
    LittleEndian::write_u32(&mut head[12..], (ticks / (1 << 32)) as u32);
    LittleEndian::write_u32(&mut head[16..], (ticks % (1 << 32)) as u32);
    LittleEndian::write_u32(&mut head[20..], size);
    LittleEndian::write_u32(&mut head[24..], size);
    head
}

/// Returns what goes after a frame: the padding, and the size of the block.
fn tail_in(tail: &mut [u8; TAIL], padding: u32, block: u32) -> &[u8]
    requires { padding ≤ 3 }
    ensures { result.now ≡ take padding (0 ∷ 0 ∷ 0 ∷ []) ++ little_bytes 4 block }
{
    *tail = [0; TAIL];
    LittleEndian::write_u32(&mut tail[PADDING.len()..], block);
    &tail[PADDING.len() - padding as usize..]
}
