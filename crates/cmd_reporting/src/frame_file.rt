//! A file of frames, to which each frame is written when it is sent.

ghost use Rattle.std.specs.Prelude.{◌≡◌, ◌^◌, ◌<◌, IfOk, IfSome, None, Ok, is_ok};
ghost use Rattle.cmd_reporting.specs.FrameFiles.{HasNewInterface, IsBegun, IsNoted, IsEnded};

use crate::fault::Fault;
use crate::files::create;
use crate::left_out::LeftOut;
use crate::options::OutputFormat;
use crate::outputs::FrameTarget;
use crate::status::Status;
use cap_pcap::{AnySink, Format, PutFault, RecordSink, SinkFault, Stamp};
use its_linkframe::Counted;
use std::alloc::Global;
use std::io;
use std::io::{BufWriter, Write};
use std::marker::Model;
use std::rt::Files;

/// A file of the frames that stations send, one by one.
#[derive(Drop)]
pub struct FrameFile<'a, W: Write + Drop> {
    alloc: Global,
    sink: AnySink<Counted<W>>,
    target: &'a str,
    /// How many frames were sent up to now.
    frames: u64,
    /// Whether one of them was left out.
    left_out: bool,
    /// Whether the file could not be written.
    failed: bool,
}

impl<'a, W: Write + Drop> Model for FrameFile<'a, W> {
    ghost use Rattle.cap_pcap.specs.Sinks.{file_of_sink};
    ghost use Rattle.cmd_reporting.specs.FrameFiles.{RunFile};

    ghost Value = { RunFile };

    ghost view = { λ f. record {
      file = file_of_sink f.sink;
      frames = f.frames;
      left_out = f.left_out;
      failed = f.failed;
    } };
}

impl<'a, W: Write + Drop> FrameFile<'a, W> {
    /// Begins the file `target`, in this format. In pcapng there is an interface for each of this
    /// number of stations, from `station 0` on. No clause says what their names are. `CannotWrite`
    /// if the file failed, `OutOfMemory` if a name could not be allocated.
    pub fn start(
        alloc: Global,
        writer: W,
        target: &'a str,
        format: Format,
        stations: usize,
    ) -> Result<FrameFile<'a, W>, Fault<'a>>
        ensures { IfOk result (IsBegun format (W.contents writer) stations) }
    {
        let mut sink = AnySink::new(Counted::new(writer), format);
        if sink.start().is_err() {
            return Err(Fault::CannotWrite(target));
        }
        for station in 0..stations {
            let name = format!(in alloc; "station {station}")?;
            if sink.add_interface(name.as_str()).is_err() {
                return Err(Fault::CannotWrite(target));
            }
        }
        Ok(FrameFile {
            alloc,
            sink,
            target,
            frames: 0,
            left_out: false,
            failed: false,
        })
    }

    /// Adds the interface of the station with this number, which a run made. In pcapng it comes
    /// here, after the packets before. The station's number has to be the number of stations before
    /// it.
    ///
    /// An error of the kind `OutOfMemory` says that its name could not be allocated. Any other
    /// error says that the file failed, which `end` then reports.
    pub fn add_station(&mut self, station: usize) -> io::Result<()>
        ensures { IfOk result (λ _. HasNewInterface self.old self.new) }
    {
        let name = format!(in self.alloc; "station {station}")?;
        match self.sink.add_interface(name.as_str()) {
            Ok(()) => Ok(()),
            Err(_) => {
                self.failed = true;
                Err(io::Error::from(io::ErrorKind::Other))
            }
        }
    }

    /// Writes the next frame, which a station sent at this time, for the interface of that station.
    /// A frame whose time or length doesn't fit the format is left out, with a line on standard
    /// error.
    ///
    /// An error says that the file failed, which `end` then reports.
    ///
    /// - its clause: the frame's record is written after all others, on its station's interface; or
    ///   it is left out, if and only if classic pcap cannot hold its time; or the file has failed,
    ///   and the result is an error.
    pub fn put<E: Write>(
        &mut self,
        station: usize,
        moment: u64,
        frame: &[u8],
        lines: OutputFormat,
        err: &mut E,
    ) -> io::Result<()>
        ensures { station < 2 ^ 32 →
            IsNoted station moment frame.now self.old self.new (is_ok result) }
    {
        let number = self.frames;
        // No run gives as many frames as there are numbers.
        self.frames = number.saturating_add(1);
        // A scenario has fewer stations than there are interfaces.
        let interface = u32::try_from(station).unwrap_or(u32::MAX);
        let stamp = Stamp::of_millis(moment);
        match self.sink.put_frame(interface, stamp, frame) {
            Ok(()) => Ok(()),
            Err(fault @ (PutFault::Moment | PutFault::Length)) => {
                self.left_out = true;
                let fault = SinkFault::Put(fault);
                let _ = writeln!(err, "{}", LeftOut::new("frame", number, fault, lines));
                Ok(())
            }
            Err(_) => {
                self.failed = true;
                Err(io::Error::from(io::ErrorKind::Other))
            }
        }
    }

    /// Ends the file after a run that ended as `ran` says. `Refused` if a frame of a run that is
    /// done was left out. `CannotWrite` if the file failed.
    pub fn end(self, ran: Result<Status, Fault<'a>>) -> Result<Status, Fault<'a>>
        ensures ended { IfOk result (IsEnded self.entry ran.entry) }
        ensures done { result ≡ Ok Status.Done → ran.entry ≡ Ok Status.Done }
    {
        let FrameFile {
            sink,
            target,
            left_out,
            failed,
            ..
        } = self;
        let flushed = sink.into_inner().into_inner().flush();
        if failed {
            return Err(Fault::CannotWrite(target));
        }
        let status = ran?;
        match flushed {
            Ok(()) if left_out && status == Status::Done => Ok(Status::Refused),
            Ok(()) => Ok(status),
            Err(_) => Err(Fault::CannotWrite(target)),
        }
    }
}

/// Creates the file of frames for this number of stations, and begins it, if one is asked for. The
/// caller first compares its name with those of the files that are read. `NotWritten` or
/// `CannotWrite` if it can't be created or written, `OutOfMemory` if an allocation failed.
pub fn create_frames<'a, R: Files + AllocGlobal>(
    rt: &R,
    target: Option<FrameTarget<'a>>,
    stations: usize,
) -> Result<Option<FrameFile<'a, BufWriter<R::File>>>, Fault<'a>>
where
    R::File: Write + Drop,
    ensures { target.entry ≡ None → result ≡ Ok None }
{
    let Some(FrameTarget { name, format }) = target else {
        return Ok(None);
    };
    let created = create(rt, name)?;
    Ok(Some(FrameFile::start(rt.alloc(), created, name, format, stations)?))
}

/// Ends the file of frames of a run that ended as `ended` says, if there is one. Returns how the run
/// then ends: `Refused` if a frame of a run that is done was left out, `CannotWrite` if the file
/// failed.
///
/// - `ended`: a run that is done ends with `Refused` if and only if a frame was left out of its
///   file.
pub fn end_frames<'a, F: Write + Drop>(
    frames: Option<FrameFile<'a, F>>,
    ended: Result<Status, Fault<'a>>,
) -> Result<Status, Fault<'a>>
    ensures none { frames.entry ≡ None → result ≡ ended.entry }
    ensures ended { IfSome frames.entry (λ file. IfOk result (IsEnded file ended.entry)) }
    ensures done { result ≡ Ok Status.Done → ended.entry ≡ Ok Status.Done }
{
    match frames {
        Some(file) => file.end(ended),
        None => ended,
    }
}
