//! Files with records of any format, read through one call.

ghost use Rattle.std.specs.Prelude.{◌≡◌, ℕ, ◌-◌, ◌^◌, ◌<◌, false, List, Result, IfOk, IfErr};
ghost use Rattle.std.specs.Prelude.{None, Err, IfSome, take, vec_capacity};
ghost use Rattle.its_linkframe.specs.declared.record.CaptureFault.TheVariants as captures;
ghost use Rattle.cap_pcap.specs.Peeked.{left_of};
ghost use Rattle.cap_pcap.specs.Sources.{GivesCaptured, GivesClassic, GivesBlock, Gives};
ghost use Rattle.cap_pcap.specs.Sources.{LacksCaptured, LacksClassic, LacksBlock, Lacks};
ghost use Rattle.cap_pcap.specs.Sources.{format_of_source, layer_of_source, newest_of_source};
ghost use Rattle.cap_pcap.specs.Formats.{IsGzip};
ghost use Rattle.cap_pcap.specs.Sources.{IsAtStart, IsOpened, IsOpenFault};
ghost use Rattle.cap_pcap.specs.declared.fault.SourceFault.TheVariants as faults;

use crate::fault::{OpenFault, SourceFault};
use crate::format::{Format, format_of, is_gzip};
use crate::info::InterfaceInfo;
use crate::pcap::PcapReader;
use crate::pcapng::PcapngReader;
use crate::peeked::Peeked;
use crate::record::{FineTime, RecordHeader, Step};
use cap_linklayers::LinkLayer;
use its_linkframe::{CaptureReader, Source};
use std::alloc::Global;
use std::marker::Model;

/// A file with records, which are read one after the other. A further format is one more
/// implementation.
pub trait RecordSource {
    ghost use Rattle.cap_pcap.specs.declared.fault.SourceFault.{SourceFault};
    ghost use Rattle.cap_pcap.specs.declared.record.Step.{Step};

    /// The result of a call by the format, with these octets in the buffer, and the rest of the
    /// file after it.
    ghost GivesStep: { Self → Self → List ℕ → Result Step SourceFault → Type 0 };

    /// When a call may return C4, by the file before and after it and the capacity of the buffer.
    /// Memory is allocated nowhere else.
    ghost LacksMemory: { Self → Self → ℕ → Type 0 };

    /// Returns the next step: a record, whose octets replace those in the buffer, a part of the
    /// file without a record, or the end. After the end each call returns it again. After a fault
    /// each call returns C5.
    fn next_into(&mut self, frame: &mut Vec<u8>) -> Result<Step, SourceFault>
        ensures step { GivesStep self.old self.new frame.new.items result }
        ensures memory { result ≡ Err (faults.Capture captures.NoMemory)
            → LacksMemory self.old self.new (vec_capacity frame.old) };
}

impl<R: Source> RecordSource for PcapReader<R> {
    ghost GivesStep = { GivesClassic };

    ghost LacksMemory = { LacksClassic };

    fn next_into(&mut self, frame: &mut Vec<u8>) -> Result<Step, SourceFault> {
        self.next_into(frame)
    }
}

impl<R: Source> RecordSource for PcapngReader<R> {
    ghost GivesStep = { GivesBlock };

    ghost LacksMemory = { LacksBlock };

    fn next_into(&mut self, frame: &mut Vec<u8>) -> Result<Step, SourceFault> {
        self.next_into(frame)
    }
}

/// The records of a capture of this project's own: bare frames, none of them cut.
#[derive(Drop)]
pub struct CaptureSource<R: Source> {
    reader: CaptureReader<R>,
}

impl<R: Source> Model for CaptureSource<R> {
    ghost use Rattle.its_linkframe.specs.Reading.{Reading};

    ghost Value = { Reading };

    ghost view = { λ s. s.reader };
}

impl<R: Source> CaptureSource<R> {
    /// Returns a reader at the start of a capture. It allocates memory for frames from `alloc`.
    pub fn new(alloc: Global, source: R) -> CaptureSource<R>
        requires { R.failed source < 2 ^ 64 - 1 }
        ensures { result ≡ record {
          failed = false;
          ended = false;
          rest = R.remaining source;
          failures = R.failed source;
        } }
    {
        CaptureSource {
            reader: CaptureReader::new(alloc, source),
        }
    }
}

impl<R: Source> RecordSource for CaptureSource<R> {
    ghost GivesStep = { GivesCaptured };

    ghost LacksMemory = { LacksCaptured };

    fn next_into(&mut self, frame: &mut Vec<u8>) -> Result<Step, SourceFault> {
        match self.reader.next_into(frame)? {
            None => Ok(Step::End),
            Some(moment) => {
                let size = frame.len() as u32;
                Ok(Step::Record(RecordHeader {
                    moment,
                    fine: FineTime {
                        nanos: 0,
                        finer: false,
                        ticks: Some(moment),
                    },
                    interface: 0,
                    captured: size,
                    wire: size,
                    layer: Some(LinkLayer::Bare),
                }))
            }
        }
    }
}

/// A file of any of the formats.
#[derive(Drop)]
pub enum AnySource<S: Source> {
    /// A capture of this project's own.
    Capture(CaptureSource<Peeked<S>>),
    /// Classic pcap.
    Pcap(PcapReader<Peeked<S>>),
    /// pcapng.
    Pcapng(PcapngReader<Peeked<S>>),
}

impl<S: Source + Drop> AnySource<S> {
    /// Opens a file of this format. Without a format, the first four octets say it. At most the
    /// first `keep` octets of a frame are kept, but all octets in a capture. Memory is allocated
    /// from `alloc`. Without a format, returns `Io` if a call of the device failed, and `Gzip` for
    /// a file that gzip compressed.
    pub fn open(
        alloc: Global,
        source: S,
        format: Option<Format>,
        keep: usize,
    ) -> Result<AnySource<S>, OpenFault>
        requires { S.failed source < 2 ^ 64 - 1 }
        ensures opened { IfOk result (IsOpened format keep (S.remaining source) (S.failed source)) }
        ensures plain { IfOk result (λ _. format ≡ None
            → IfSome (S.remaining source) (λ w. ¬ IsGzip (take 4 w))) }
        ensures fault { IfErr result (λ f. (format ≡ None) × IsOpenFault (S.remaining source) f) }
    {
        match format {
            Some(format) => Ok(AnySource::of(alloc, Peeked::new(source), format, keep)),
            None => {
                let Some(peeked) = Peeked::peek(source) else {
                    return Err(OpenFault::Io);
                };
                if is_gzip(peeked.peeked()) {
                    return Err(OpenFault::Gzip);
                }
                let format = format_of(peeked.peeked());
                Ok(AnySource::of(alloc, peeked, format, keep))
            }
        }
    }

    /// Returns a source for a file of this format.
    fn of(alloc: Global, source: Peeked<S>, format: Format, keep: usize) -> AnySource<S>
        requires { S.failed source.source < 2 ^ 64 - 1 }
        ensures format { format_of_source result ≡ format }
        ensures start { IsAtStart keep
            (left_of source.at source.first (S.remaining source.source))
            (S.failed source.source) result }
    {
        match format {
            Format::Capture => AnySource::Capture(CaptureSource::new(alloc, source)),
            Format::Pcap => AnySource::Pcap(PcapReader::new(source, keep)),
            Format::Pcapng => AnySource::Pcapng(PcapngReader::new(alloc, source, keep)),
        }
    }

    /// Returns the link layer of a classic pcap file, between its header and its end or a fault. In
    /// other formats each record has its own.
    pub fn layer(&self) -> Option<LinkLayer>
        ensures { result ≡ layer_of_source self.now }
    {
        match self {
            AnySource::Pcap(reader) => reader.layer(),
            AnySource::Capture(_) | AnySource::Pcapng(_) => None,
        }
    }

    /// Returns what the file says about its last interface so far. In classic pcap its header says
    /// it, in pcapng the last interface block of the section. A capture has no interfaces.
    pub fn newest(&self) -> Option<InterfaceInfo>
        ensures { result ≡ newest_of_source self.now }
    {
        match self {
            AnySource::Pcap(reader) => reader.newest(),
            AnySource::Pcapng(reader) => reader.newest(),
            AnySource::Capture(_) => None,
        }
    }

    /// Returns the format of the file.
    pub fn format(&self) -> Format
        ensures { result ≡ format_of_source self.now }
    {
        match self {
            AnySource::Capture(_) => Format::Capture,
            AnySource::Pcap(_) => Format::Pcap,
            AnySource::Pcapng(_) => Format::Pcapng,
        }
    }
}

impl<S: Source> RecordSource for AnySource<S> {
    ghost GivesStep = { Gives };

    ghost LacksMemory = { Lacks };

    fn next_into(&mut self, frame: &mut Vec<u8>) -> Result<Step, SourceFault> {
        match self {
            AnySource::Capture(reader) => reader.next_into(frame),
            AnySource::Pcap(reader) => reader.next_into(frame),
            AnySource::Pcapng(reader) => reader.next_into(frame),
        }
    }
}
