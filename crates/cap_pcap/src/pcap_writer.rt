//! Writing a classic pcap file.

ghost use Rattle.std.specs.Prelude.{◌≡◌, ◌-◌, ◌+◌, ◌/◌, ◌^◌, ◌<◌, ◌≤◌, ◌↔◌, ◌||◌, ◌++◌, length};
ghost use Rattle.std.specs.Prelude.{OnOk, IfErr, Err, IsTrue, if◌then◌else◌, false};
ghost use Rattle.std.specs.Io.KnownBytes.{Appends};
ghost use Rattle.cap_pcap.specs.PcapWritten.{file_front, file_header, record_head, record_of};
ghost use Rattle.cap_pcap.specs.PcapWritten.{IsPutFault};
ghost use Rattle.cap_pcap.specs.Writing.{is_io_failure, IsStartFault};
ghost use Rattle.cap_pcap.specs.declared.put_fault.PutFault.TheVariants as put_faults;

use crate::output::Output;
use crate::pcap::{LONGEST_CAPTURED, Unit};
use crate::put_fault::PutFault;
use byteorder::{ByteOrder, LittleEndian};
use cap_linklayers::LinkLayer;
use its_linkframe::Sink;
use std::marker::Model;

/// The magic d4c3b2a1 (microseconds), version 2.4, zone 0, accuracy 0, snap length 262144. The number
/// of the link layer follows.
const MICRO_FRONT: [u8; 20] = [
    0xd4, 0xc3, 0xb2, 0xa1, 2, 0, 4, 0, 0, 0, 0, 0, 0, 0, 0, 0, 0, 0, 4, 0,
];

/// The front of a file whose magic is 4d3cb2a1 (nanoseconds). The other fields are those of
/// `MICRO_FRONT`.
const NANO_FRONT: [u8; 20] = [
    0x4d, 0x3c, 0xb2, 0xa1, 2, 0, 4, 0, 0, 0, 0, 0, 0, 0, 0, 0, 0, 0, 4, 0,
];

/// The octets of a file's header.
const FILE_HEADER: usize = 24;

/// The octets before a frame.
const HEAD: usize = 16;

/// Writes the header of a classic pcap file, then its records, one after the other. It allocates no
/// memory.
#[derive(Drop)]
pub struct PcapWriter<W: Sink> {
    output: Output<W>,
}

impl<W: Sink> Model for PcapWriter<W> {
    ghost use Rattle.cap_pcap.specs.Writing.{Writing};

    ghost Value = { Writing };

    ghost view = { λ w. w.output };
}

impl<W: Sink> PcapWriter<W> {
    /// Returns a writer that appends to what the sink has. Nothing is written yet.
    pub fn new(sink: W) -> PcapWriter<W>
        requires { W.failed sink < 2 ^ 64 - 1 }
        ensures { result ≡ record {
          failed = false;
          contents = W.contents sink;
          failures = W.failed sink;
        } }
    {
        PcapWriter {
            output: Output::new(sink),
        }
    }

    /// Writes the header of a file of this link layer, whose times below the second are in this
    /// unit. It has to be the first call.
    pub fn start(&mut self, layer: LinkLayer, unit: Unit) -> Result<(), PutFault>
        ensures stored { OnOk result
            (Appends self.old.contents self.new.contents (file_header unit layer)) }
        ensures fault { IfErr result (IsStartFault (file_header unit layer) self.old self.new) }
        ensures counts { self.new.failures
            ≡ self.old.failures + (if is_io_failure result then 1 else 0) }
        ensures failed { (result ≡ Err put_faults.Failed) ↔ IsTrue self.old.failed }
        ensures breaks { self.new.failed ≡ (self.old.failed || is_io_failure result) }
    {
        self.output.write(&[&header_for(layer, unit)])
    }

    /// Writes a whole record of these octets. Its second is that of `moment`, which is in
    /// milliseconds. `fraction` is the time below the second, in the unit of the file. Returns
    /// `Length` for more than 262144 octets, and otherwise `Moment` if the second is 2^32 or more.
    pub fn put(&mut self, moment: u64, fraction: u32, frame: &[u8]) -> Result<(), PutFault>
        ensures stored { OnOk result
            (Appends self.old.contents self.new.contents (record_of moment fraction frame.now)) }
        ensures fits { OnOk result ((length frame.now ≤ LONGEST_CAPTURED)
            × (moment / 1000 < 2 ^ 32)) }
        ensures fault { IfErr result (IsPutFault moment fraction frame.now self.old self.new) }
        ensures counts { self.new.failures
            ≡ self.old.failures + (if is_io_failure result then 1 else 0) }
        ensures failed { (result ≡ Err put_faults.Failed) ↔ IsTrue self.old.failed }
        ensures breaks { self.new.failed ≡ (self.old.failed || is_io_failure result) }
    {
        self.output.check()?;
        if frame.len() > LONGEST_CAPTURED as usize {
            return Err(PutFault::Length);
        }
        let Ok(seconds) = u32::try_from(moment / 1000) else {
            return Err(PutFault::Moment);
        };
        let head = head_for(seconds, fraction, frame.len() as u32);
        self.output.write(&[&head, frame])
    }

    /// Returns the sink, with what was written.
    pub fn into_inner(self) -> W
        ensures contents { W.contents result ≡ self.contents }
        ensures failures { W.failed result ≡ self.failures }
    {
        self.output.into_inner()
    }
}

/// The header of a file up to the link layer, in this unit.
fn front_for(unit: Unit) -> [u8; 20]
    ensures { result ≡ file_front unit }
{
    match unit {
        Unit::Micro => MICRO_FRONT,
        Unit::Nano => NANO_FRONT,
    }
}

/// The header of a file of this link layer, in this unit.
#[tactic(auto, unfolding(crate::specs::PcapWritten::file_header))]
fn header_for(layer: LinkLayer, unit: Unit) -> [u8; FILE_HEADER]
    ensures { result ≡ file_header unit layer }
{
    let front = front_for(unit);
    let mut header = [0; FILE_HEADER];
    header[..front.len()].copy_from_slice(&front);
    LittleEndian::write_u32(&mut header[front.len()..], layer.number());
    header
}

/// What goes before a frame.
#[tactic(auto, unfolding(crate::specs::PcapWritten::record_head))]
fn head_for(seconds: u32, fraction: u32, size: u32) -> [u8; HEAD]
    ensures { result ≡ record_head seconds fraction size }
{
    let mut head = [0; HEAD];
    LittleEndian::write_u32(&mut head, seconds);
    LittleEndian::write_u32(&mut head[4..], fraction);
    LittleEndian::write_u32(&mut head[8..], size);
    LittleEndian::write_u32(&mut head[12..], size);
    head
}
