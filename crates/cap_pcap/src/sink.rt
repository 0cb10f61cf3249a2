//! Files with records of any format, written through one call.

ghost use Rattle.std.specs.Prelude.{◌≡◌, ◌-◌, ◌^◌, ◌<◌, false, MatchOption};
ghost use Rattle.cap_pcap.specs.RecordFiles.{RecordFile, capture_file, pcap_file, pcapng_file};
ghost use Rattle.cap_pcap.specs.RecordFiles.{StartsOn, Starts, AddsInterfaceOn, AddsInterface};
ghost use Rattle.cap_pcap.specs.RecordFiles.{PutsFrame};
ghost use Rattle.cap_pcap.specs.Words.{word_of};
ghost use Rattle.cap_pcap.specs.Sinks.{file_of_sink};
ghost use Rattle.cap_pcap.specs.declared.sink.SinkFault.TheVariants as sink_faults;

use crate::format::Format;
use crate::info::InterfaceHead;
use crate::pcap::Unit;
use crate::pcap_writer::PcapWriter;
use crate::pcapng_writer::PcapngWriter;
use crate::put_fault::PutFault;
use crate::record::RecordFault;
use crate::stamp::Stamp;
use cap_linklayers::{LinkFault, LinkLayer};
use its_linkframe::{CaptureFault, CaptureWriter, Sink};
use std::error::Error;
use std::fmt;

/// Why a record is not written.
#[derive(Clone, Copy, Debug, PartialEq, Eq)]
pub enum SinkFault {
    /// Its link layer differs from that of the file, or it was cut. Nothing is written.
    Record(RecordFault),
    /// No frame follows its link layer's header. Nothing is written.
    Link(LinkFault),
    /// The file can't hold its octets or its time, or the file failed.
    Put(PutFault),
}

impl SinkFault {
    /// Returns what is wrong with the record, as the program prints it: `link type`, `cut`, `L1`,
    /// `L2`, `length` or `moment`. `None` if the file failed.
    pub fn word(&self) -> Option<&'static str>
        ensures { MatchOption result (word_of self.now ≡ None)
            (λ w. word_of self.now ≡ Some w.now) }
    {
        match self {
            SinkFault::Record(RecordFault::LinkType) => Some("link type"),
            SinkFault::Record(RecordFault::CutFrame) => Some("cut"),
            SinkFault::Link(fault) => Some(fault.code()),
            SinkFault::Put(PutFault::Length) => Some("length"),
            SinkFault::Put(PutFault::Moment) => Some("moment"),
            SinkFault::Put(_) => None,
        }
    }
}

impl From<PutFault> for SinkFault {
    ghost from_gives = { λ f s. s ≡ sink_faults.Put f };

    fn from(fault: PutFault) -> SinkFault {
        SinkFault::Put(fault)
    }
}

impl From<RecordFault> for SinkFault {
    ghost from_gives = { λ f s. s ≡ sink_faults.Record f };

    fn from(fault: RecordFault) -> SinkFault {
        SinkFault::Record(fault)
    }
}

impl From<LinkFault> for SinkFault {
    ghost from_gives = { λ f s. s ≡ sink_faults.Link f };

    fn from(fault: LinkFault) -> SinkFault {
        SinkFault::Link(fault)
    }
}

impl fmt::Display for SinkFault {
    fn fmt<W: fmt::Write>(&self, f: &mut fmt::Formatter<W>) -> fmt::Result {
        match self {
            SinkFault::Record(fault) => write!(f, "{fault}"),
            SinkFault::Link(fault) => write!(f, "{fault}"),
            SinkFault::Put(fault) => write!(f, "{fault}"),
        }
    }
}

impl Error for SinkFault {}

/// A file to which records are written, one after the other. A further format is one more
/// implementation.
pub trait RecordSink {
    /// The file: its format, its interfaces, and what its device has.
    ghost file: { Self → RecordFile };

    /// Writes the beginning of a file. It has to be the first call. In classic pcap the records
    /// have this link layer, and times in this unit.
    fn start_on(&mut self, layer: LinkLayer, unit: Unit) -> Result<(), PutFault>
        ensures { StartsOn unit layer (file self.old).format (file self.old) (file self.new)
            result };

    /// Writes the beginning of a file of Ethernet frames, whose times are in milliseconds.
    fn start(&mut self) -> Result<(), PutFault>
        ensures { Starts (file self.old).format (file self.old) (file self.new) result }
    {
        self.start_on(LinkLayer::Ethernet, Unit::Micro)
    }

    /// Writes an interface with this head and this name, or with none if the name is empty, if the
    /// format has interfaces. The first is number 0. Each is written before its first record.
    fn add_interface_on(&mut self, head: InterfaceHead, name: &[u8]) -> Result<(), PutFault>
        ensures { AddsInterfaceOn head (file self.old).format name.now (file self.old)
            (file self.new) result };

    /// Writes an interface of Ethernet whose ticks are milliseconds.
    fn add_interface(&mut self, name: &str) -> Result<(), PutFault>
        ensures { AddsInterface (file self.old).format name.now (file self.old) (file self.new)
            result }
    {
        self.add_interface_on(InterfaceHead::of_millis(), name.as_bytes())
    }

    /// Writes a frame, or the record that the link layer has for it, at this time. It belongs to
    /// this interface, if the format has interfaces.
    fn put_frame(&mut self, interface: u32, stamp: Stamp, frame: &[u8]) -> Result<(), PutFault>
        ensures { PutsFrame interface stamp frame.now (file self.old) (file self.new) result };
}

impl<W: Sink> RecordSink for CaptureWriter<W> {
    ghost file = { capture_file };

    fn start_on(&mut self, _layer: LinkLayer, _unit: Unit) -> Result<(), PutFault> {
        Ok(())
    }

    fn add_interface_on(&mut self, _head: InterfaceHead, _name: &[u8]) -> Result<(), PutFault> {
        Ok(())
    }

    fn put_frame(&mut self, _interface: u32, stamp: Stamp, frame: &[u8]) -> Result<(), PutFault> {
        match self.put(stamp.moment, frame) {
            Ok(()) => Ok(()),
            Err(CaptureFault::Length) => Err(PutFault::Length),
            Err(CaptureFault::Io) => Err(PutFault::Io),
            Err(CaptureFault::CutRecord | CaptureFault::NoMemory | CaptureFault::Failed) => {
                Err(PutFault::Failed)
            }
        }
    }
}

impl<W: Sink> RecordSink for PcapWriter<W> {
    ghost file = { pcap_file };

    fn start_on(&mut self, layer: LinkLayer, unit: Unit) -> Result<(), PutFault> {
        self.start(layer, unit)
    }

    fn add_interface_on(&mut self, _head: InterfaceHead, _name: &[u8]) -> Result<(), PutFault> {
        Ok(())
    }

    fn put_frame(&mut self, _interface: u32, stamp: Stamp, frame: &[u8]) -> Result<(), PutFault> {
        self.put(stamp.moment, stamp.fraction, frame)
    }
}

impl<W: Sink> RecordSink for PcapngWriter<W> {
    ghost file = { pcapng_file };

    fn start_on(&mut self, _layer: LinkLayer, _unit: Unit) -> Result<(), PutFault> {
        self.start()
    }

    fn add_interface_on(&mut self, head: InterfaceHead, name: &[u8]) -> Result<(), PutFault> {
        self.add_interface(head, name)
    }

    fn put_frame(&mut self, interface: u32, stamp: Stamp, frame: &[u8]) -> Result<(), PutFault> {
        self.put(interface, stamp.ticks, frame)
    }
}

/// A file of any of the formats.
#[derive(Drop)]
pub enum AnySink<W: Sink> {
    /// A capture of this project's own.
    Capture(CaptureWriter<W>),
    /// Classic pcap.
    Pcap(PcapWriter<W>),
    /// pcapng.
    Pcapng(PcapngWriter<W>),
}

impl<W: Sink> AnySink<W> {
    /// Returns a file of this format that appends to what the sink has. Nothing is written yet.
    pub fn new(sink: W, format: Format) -> AnySink<W>
        requires { W.failed sink < 2 ^ 64 - 1 }
        ensures { file_of_sink result ≡ record {
          format = format;
          interfaces = 0;
          failed = false;
          contents = W.contents sink;
          failures = W.failed sink;
        } }
    {
        match format {
            Format::Capture => AnySink::Capture(CaptureWriter::new(sink)),
            Format::Pcap => AnySink::Pcap(PcapWriter::new(sink)),
            Format::Pcapng => AnySink::Pcapng(PcapngWriter::new(sink)),
        }
    }

    /// Returns the sink, with what was written.
    pub fn into_inner(self) -> W
        ensures contents { W.contents result ≡ (file_of_sink self).contents }
        ensures failures { W.failed result ≡ (file_of_sink self).failures }
    {
        match self {
            AnySink::Capture(writer) => writer.into_inner(),
            AnySink::Pcap(writer) => writer.into_inner(),
            AnySink::Pcapng(writer) => writer.into_inner(),
        }
    }
}

impl<W: Sink> RecordSink for AnySink<W> {
    ghost file = { file_of_sink };

    fn start_on(&mut self, layer: LinkLayer, unit: Unit) -> Result<(), PutFault> {
        match self {
            AnySink::Capture(writer) => writer.start_on(layer, unit),
            AnySink::Pcap(writer) => writer.start_on(layer, unit),
            AnySink::Pcapng(writer) => writer.start_on(layer, unit),
        }
    }

    fn add_interface_on(&mut self, head: InterfaceHead, name: &[u8]) -> Result<(), PutFault> {
        match self {
            AnySink::Capture(writer) => writer.add_interface_on(head, name),
            AnySink::Pcap(writer) => writer.add_interface_on(head, name),
            AnySink::Pcapng(writer) => writer.add_interface_on(head, name),
        }
    }

    fn put_frame(&mut self, interface: u32, stamp: Stamp, frame: &[u8]) -> Result<(), PutFault> {
        match self {
            AnySink::Capture(writer) => writer.put_frame(interface, stamp, frame),
            AnySink::Pcap(writer) => writer.put_frame(interface, stamp, frame),
            AnySink::Pcapng(writer) => writer.put_frame(interface, stamp, frame),
        }
    }
}
