//! The file that `convert` writes.

ghost use Rattle.std.specs.Prelude.{◌≡◌, ℕ, List, OnOk, IfOk, IfErr};
ghost use Rattle.cmd_captures.specs.Conversions.{IsBegun, IsFileFault, PutsRecord, WritesText};
ghost use Rattle.cmd_captures.specs.Conversions.{IsFrameText, IsTextFault};
ghost use Rattle.cmd_captures.specs.Conversions.{MeetsInterface, HasInterface};
ghost use Rattle.cmd_captures.specs.Conversions.{unit_with, layer_after, is_finer_unit};
ghost use Rattle.cmd_captures.specs.Conversions.{head_to, HasSection};
ghost use Rattle.cap_pcap.specs.InterfaceHeads.{name_in};
ghost use Rattle.cap_pcap.specs.declared.format.Format.TheVariants as formats;

use crate::losses::Losses;
use cap_pcap::{
    AnySink, Format, InterfaceHead, InterfaceInfo, InterfaceName, LinkFault, LinkLayer, PutFault,
    RecordHeader, RecordSink, SinkFault, Unit, frame_start, has_place, layer_for,
};
use cap_records::{RecordFault, bring_inner, find_plain, reads_secured};
use its_linkframe::Counted;
use std::io::Write;
use std::marker::Model;

/// A file whose headers are written with its first interface, with its first record, which may say
/// its link layer, or at its end.
#[derive(Drop)]
pub(crate) struct Written<W: Write + Drop> {
    sink: AnySink<Counted<W>>,
    frames_only: bool,
    /// The link layer of all records, once it is known. pcapng without frames has none.
    layer: Option<LinkLayer>,
    /// What classic pcap counts below the second.
    unit: Unit,
    /// Whether the headers are written.
    begun: bool,
    /// What the file can't hold.
    losses: Losses,
}

impl<W: Write + Drop> Model for Written<W> {
    ghost use Rattle.cap_pcap.specs.Sinks.{file_of_sink};
    ghost use Rattle.cmd_captures.specs.Conversions.{Target};

    ghost Value = { Target };

    ghost view = { λ w. record {
      file = file_of_sink w.sink;
      frames_only = w.frames_only;
      layer = w.layer;
      unit = w.unit;
      begun = w.begun;
    } };
}

impl<W: Write + Drop> Written<W> {
    /// Returns a file of this format before anything is written. A capture has only frames.
    pub(crate) fn new(writer: W, format: Format, frames_only: bool) -> Written<W> {
        let frames_only = frames_only || format == Format::Capture;
        Written {
            sink: AnySink::new(Counted::new(writer), format),
            frames_only,
            layer: frames_only.then_some(LinkLayer::Ethernet),
            unit: Unit::Micro,
            begun: false,
            losses: Losses::begin(),
        }
    }

    /// Takes an interface that begins in the file that is read. In pcapng an interface block is
    /// written. Otherwise only the link layer counts, if the file that is read has one for all its
    /// records, and the unit of the ticks until the headers are written.
    pub(crate) fn meet(
        &mut self,
        layer: Option<LinkLayer>,
        newest: Option<InterfaceInfo>,
    ) -> Result<(), PutFault>
        ensures met { OnOk result ((added : List ℕ) × MeetsInterface (record {
          layer = layer;
          newest = newest;
        }) self.old added self.new) }
        ensures fault { IfErr result IsFileFault }
    {
        let format = self.format();
        self.losses.add_interface(format);
        if format == Format::Pcapng {
            return match newest {
                Some(info) => self.add_interface(&info),
                None => Ok(()),
            };
        }
        self.layer = self.layer.or(layer);
        if !self.begun {
            self.unit = unit_after(self.unit, newest);
        }
        Ok(())
    }

    /// Writes the block of an interface. The section header comes before the first.
    fn add_interface(&mut self, info: &InterfaceInfo) -> Result<(), PutFault>
        requires { self.old.file.format ≡ formats.Pcapng }
        ensures added { OnOk result ((added : List ℕ) × HasInterface info.now self.old added
            self.new) }
        ensures fault { IfErr result IsFileFault }
    {
        self.begin_section()?;
        let head = head_for(info.head, self.frames_only);
        self.sink.add_interface_on(head, name_of(&info.name))?;
        Ok(())
    }

    /// Writes the section header, unless it was written.
    fn begin_section(&mut self) -> Result<(), PutFault>
        requires { self.old.file.format ≡ formats.Pcapng }
        ensures begun { OnOk result (HasSection self.old self.new) }
        ensures fault { IfErr result IsFileFault }
    {
        if self.begun {
            return Ok(());
        }
        self.begun = true;
        self.sink.start_on(LinkLayer::Ethernet, self.unit)?;
        Ok(())
    }

    /// Writes a record, or only its frame, which is put together among the octets. With `signed`,
    /// the inner frame of a secured frame is written. It isn't checked.
    ///
    /// Returns the first fault: its link layer; that it was cut; if a frame is written, the rules
    /// of its link layer, and then a message that can't be read (`Unread`); its length; its time.
    pub(crate) fn put(
        &mut self,
        head: &RecordHeader,
        octets: &mut Vec<u8>,
        signed: bool,
    ) -> Result<(), PutRefusal>
        ensures { PutsRecord signed head.now octets.old.items self.old self.new result }
    {
        if !self.frames_only {
            let layer = layer_for(head, self.layer)?;
            return Ok(self.write(layer, head, octets.as_slice())?);
        }
        let layer = layer_for(head, None)?;
        let frame = frame_text(layer, octets, signed)?;
        Ok(self.write(LinkLayer::Ethernet, head, frame)?)
    }

    /// Writes a record of these octets. The headers come before the first.
    fn write(
        &mut self,
        layer: LinkLayer,
        head: &RecordHeader,
        octets: &[u8],
    ) -> Result<(), SinkFault>
        ensures { WritesText layer head.now octets.now self.old self.new result }
    {
        let format = self.format();
        let stamp = head.stamp(self.unit);
        has_place(format, head.interface, stamp, octets)?;
        self.layer = layer_with(format, layer, self.layer);
        self.begin(layer)?;
        self.sink.put_frame(head.interface, stamp, octets)?;
        self.losses.add_time(format, self.unit, &head.fine);
        Ok(())
    }

    /// Writes the headers, unless they were written.
    fn begin(&mut self, layer: LinkLayer) -> Result<(), PutFault>
        ensures begun { OnOk result (IsBegun layer self.old self.new) }
        ensures fault { IfErr result IsFileFault }
    {
        if self.begun {
            return Ok(());
        }
        self.begun = true;
        self.sink.start_on(layer, self.unit)?;
        self.sink.add_interface("")?;
        Ok(())
    }

    /// Returns the format of the file.
    fn format(&self) -> Format
        ensures { result ≡ self.now.file.format }
    {
        match self.sink {
            AnySink::Capture(_) => Format::Capture,
            AnySink::Pcap(_) => Format::Pcap,
            AnySink::Pcapng(_) => Format::Pcapng,
        }
    }

    /// Writes the headers, unless they were written. Returns whether they are now.
    pub(crate) fn end(&mut self) -> bool {
        let layer = self.layer.unwrap_or(LinkLayer::Ethernet);
        self.begin(layer).is_ok()
    }

    /// Returns what the file can't hold.
    pub(crate) fn losses(&self) -> Losses {
        self.losses
    }

    /// Returns the writer, with what was written.
    pub(crate) fn into_writer(self) -> W {
        self.sink.into_inner().into_inner()
    }
}

/// Why a record isn't written.
#[derive(Clone, Copy)]
pub(crate) enum PutRefusal {
    /// The file can't hold it, or the file failed.
    Sink(SinkFault),
    /// Its secured frame can't be read.
    Unread(RecordFault),
}

impl From<SinkFault> for PutRefusal {
    ghost use Rattle.std.specs.Prelude.{◌≡◌};
    ghost use Rattle.cmd_captures.specs.declared.written.PutRefusal.TheVariants as refusals;

    ghost from_gives = { λ fault e. e ≡ refusals.Sink fault };

    fn from(fault: SinkFault) -> PutRefusal {
        PutRefusal::Sink(fault)
    }
}

impl From<cap_pcap::RecordFault> for PutRefusal {
    ghost use Rattle.std.specs.Prelude.{◌≡◌};
    ghost use Rattle.cmd_captures.specs.declared.written.PutRefusal.TheVariants as refusals;
    ghost use Rattle.cap_pcap.specs.declared.sink.SinkFault.TheVariants as sink_faults;

    ghost from_gives = { λ fault e. e ≡ refusals.Sink (sink_faults.Record fault) };

    fn from(fault: cap_pcap::RecordFault) -> PutRefusal {
        PutRefusal::Sink(SinkFault::Record(fault))
    }
}

impl From<LinkFault> for PutRefusal {
    ghost use Rattle.std.specs.Prelude.{◌≡◌};
    ghost use Rattle.cmd_captures.specs.declared.written.PutRefusal.TheVariants as refusals;
    ghost use Rattle.cap_pcap.specs.declared.sink.SinkFault.TheVariants as sink_faults;

    ghost from_gives = { λ fault e. e ≡ refusals.Sink (sink_faults.Link fault) };

    fn from(fault: LinkFault) -> PutRefusal {
        PutRefusal::Sink(SinkFault::Link(fault))
    }
}

impl From<RecordFault> for PutRefusal {
    ghost use Rattle.std.specs.Prelude.{◌≡◌};
    ghost use Rattle.cmd_captures.specs.declared.written.PutRefusal.TheVariants as refusals;

    ghost from_gives = { λ fault e. e ≡ refusals.Unread fault };

    fn from(fault: RecordFault) -> PutRefusal {
        PutRefusal::Unread(fault)
    }
}

/// Returns the unit of classic pcap after an interface: nanoseconds if its ticks aren't whole
/// microseconds.
fn unit_after(unit: Unit, newest: Option<InterfaceInfo>) -> Unit
    ensures { result ≡ unit_with unit newest }
{
    match newest {
        Some(info) if is_fine(info.head.resolution) => Unit::Nano,
        _ => unit,
    }
}

/// Whether ticks of this `if_tsresol` aren't whole microseconds.
fn is_fine(resolution: u8) -> bool
    ensures { result ≡ is_finer_unit resolution }
{
    (resolution > 6 && resolution < 128) || resolution > 134
}

/// Returns the link layer of the file after a record of this link layer.
fn layer_with(format: Format, layer: LinkLayer, old: Option<LinkLayer>) -> Option<LinkLayer>
    ensures { result ≡ layer_after format layer old }
{
    match format {
        Format::Pcapng => old,
        Format::Capture | Format::Pcap => Some(layer),
    }
}

/// Returns the head of an interface as it is written. Frames have the link type of Ethernet.
fn head_for(head: InterfaceHead, frames_only: bool) -> InterfaceHead
    ensures { result ≡ head_to frames_only head }
{
    if !frames_only {
        return head;
    }
    InterfaceHead {
        link: 1,
        resolution: head.resolution,
        offset: head.offset,
    }
}

/// Returns the octets of a name. An absent name has none.
fn name_of(name: &Option<InterfaceName>) -> &[u8]
    ensures { result.now ≡ name_in name.now }
{
    match name {
        Some(name) => name.as_bytes(),
        None => &[],
    }
}

/// Puts together the frame of a record of this link layer among the record's octets, and returns
/// it.
fn frame_text(layer: LinkLayer, octets: &mut Vec<u8>, signed: bool) -> Result<&[u8], PutRefusal>
    ensures frame { IfOk result (λ text. IsFrameText signed layer octets.old.items text.now) }
    ensures fault { IfErr result (IsTextFault signed layer octets.old.items) }
{
    let start = frame_start(layer, octets)?;
    if !reads_secured(signed, &octets.as_slice()[start..]) {
        return Ok(&octets.as_slice()[start..]);
    }
    let plain = find_plain(&octets.as_slice()[start..])?;
    let place = bring_inner(octets, start, &plain);
    Ok(place.octets(octets.as_slice()))
}
