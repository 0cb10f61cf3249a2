//! The lines of a replay, and the file of its frames.

ghost use Rattle.std.specs.Prelude.{◌≡◌, IfOk};

use crate::replay::against::AgainstFrames;
use crate::replay::comparison::MOST_AWAITED;
use crate::replay::differences::DifferenceTotal;
use crate::replay::heard::{Heard, HeardSink};
use crate::replay::lines::ReplayLine;
use crate::replay::reply::UnitReply;
use cap_records::{FileFault, RefusedCapture};
use cmd_reporting::{Fault, FrameFile, Io, Status};
use its_station::Answer;
use its_words::json_lines::JsonLine;
use serde::Serialize;
use std::alloc::{AllocError, Global};
use std::fmt::Display;
use std::io::Write;

/// Prints one line per record, and writes the frames that are forwarded to a file, if there is one.
/// If the replay is compared with what a station sent, also prints what differs.
#[derive(Drop)]
pub(crate) struct Printer<'p, 't, W, E, F: Write + Drop> {
    alloc: Global,
    line: JsonLine,
    /// Whether each line is flushed, since the next read may wait.
    waits: bool,
    pub(crate) io: &'p mut Io<W, E>,
    pub(crate) file: Option<FrameFile<'t, F>>,
    /// How many frames were forwarded so far.
    frames: u64,
    /// The comparison, if there is one.
    against: Option<AgainstFrames>,
}

impl<'p, 't, W: Write, E: Write, F: Write + Drop> Printer<'p, 't, W, E, F> {
    /// Returns a printer that has printed no line. It allocates a buffer for one line.
    pub(crate) fn new(
        alloc: Global,
        waits: bool,
        file: Option<FrameFile<'t, F>>,
        against: Option<AgainstFrames>,
        io: &'p mut Io<W, E>,
    ) -> Result<Printer<'p, 't, W, E, F>, AllocError> {
        Ok(Printer {
            alloc,
            line: JsonLine::new(alloc)?,
            waits,
            io,
            file,
            frames: 0,
            against,
        })
    }

    /// Writes the line of a value. `NoOutput` if the write failed, `OutOfMemory` if an allocation
    /// failed.
    pub(crate) fn line<'f, T: Display + Serialize>(&mut self, value: &T) -> Result<(), Fault<'f>> {
        if self.io.format.json {
            self.io.out.write_all(self.line.of(value)?)?;
        } else {
            writeln!(self.io.out, "{value}")?;
        }
        if self.waits {
            self.io.out.flush()?;
        }
        Ok(())
    }

    /// Writes the line of the capture, which is refused by this fault after this number of records. The
    /// errors are those of `line`.
    pub(crate) fn refuse<'f>(&mut self, fault: FileFault, records: u64) -> Result<Status, Fault<'f>>
        ensures { IfOk result (λ status. status ≡ Status.Refused) }
    {
        self.line(&RefusedCapture::new(records, fault, self.io.format.explain))?;
        Ok(Status::Refused)
    }

    /// Forwards the frame of a reply, if it has one.
    fn pass_reply<'f>(&mut self, moment: u64, reply: UnitReply) -> Result<(), Fault<'f>> {
        match reply {
            UnitReply::Passed(Answer::Accepted { sent, .. }) => match sent {
                Some(frame) => self.pass_on(moment, frame),
                None => Ok(()),
            },
            _ => Ok(()),
        }
    }

    /// Does what follows the line of a record.
    fn follow<'f>(&mut self, heard: Heard) -> Result<(), Fault<'f>> {
        match heard {
            Heard::Received { moment, reply, .. } => self.pass_reply(moment, reply),
            Heard::Sent {
                moment,
                frame,
                source,
            } => self.compare(moment, frame.as_slice(), source),
            Heard::Nothing { .. } => Ok(()),
        }
    }

    /// Counts a frame that is forwarded, and writes it to the file.
    fn pass_on<'f>(&mut self, moment: u64, frame: Vec<u8>) -> Result<(), Fault<'f>> {
        let number = self.frames;
        // No file has as many records as there are numbers.
        self.frames = number.saturating_add(1);
        if let Some(file) = &mut self.file {
            file.put(
                0,
                moment,
                frame.as_slice(),
                self.io.format,
                &mut self.io.err,
            )?;
        }
        let gone = match &mut self.against {
            Some(against) => against.expect(number, moment, frame)?,
            None => None,
        };
        match gone {
            Some(line) => self.line(&line),
            None => Ok(()),
        }
    }

    /// Compares what the station under test sent at a moment: these octets, of a packet of this
    /// source, if they are read.
    fn compare<'f>(
        &mut self,
        moment: u64,
        sent: &[u8],
        source: Option<u64>,
    ) -> Result<(), Fault<'f>> {
        let line = match &mut self.against {
            Some(against) => against.compare(moment, sent, source),
            None => return Ok(()),
        };
        self.line(&line)
    }

    /// Writes the line of a record that the station under test didn't send.
    fn print_heard<'f>(&mut self, heard: &Heard) -> Result<(), Fault<'f>> {
        if heard.is_sent() {
            return Ok(());
        }
        let explain = self.io.format.explain;
        self.line(&ReplayLine::of(heard, self.frames, explain))
    }

    /// Writes the lines of the frames that were not sent in time, before a moment.
    fn print_missed<'f>(&mut self, now: u64) -> Result<(), Fault<'f>> {
        for _ in 0..=MOST_AWAITED {
            let missed = match &mut self.against {
                Some(against) => against.next_missed(now),
                None => None,
            };
            match missed {
                Some(line) => self.line(&line)?,
                None => return Ok(()),
            }
        }
        Ok(())
    }

    /// Writes the lines of the frames that still wait at the end of the capture.
    fn print_left<'f>(&mut self) -> Result<(), Fault<'f>> {
        for _ in 0..=MOST_AWAITED {
            let left = match &mut self.against {
                Some(against) => against.next_left(),
                None => None,
            };
            match left {
                Some(line) => self.line(&line)?,
                None => return Ok(()),
            }
        }
        Ok(())
    }

    /// Ends the comparison, if there is one, with the counts of what differs. `Refused` if a
    /// difference is an error and there is one.
    pub(crate) fn end<'f>(&mut self) -> Result<Status, Fault<'f>> {
        self.print_left()?;
        let (counts, has_error) = match &self.against {
            Some(against) => (against.counts, against.has_error()),
            None => return Ok(Status::Done),
        };
        let total = DifferenceTotal::of(counts);
        if !self.io.format.json {
            writeln!(self.io.out)?;
            counts.table(self.alloc)?.write(&mut self.io.out)?;
        }
        self.line(&total)?;
        if has_error {
            return Ok(Status::Refused);
        }
        Ok(Status::Done)
    }
}

impl<W: Write, E: Write, F: Write + Drop> HeardSink for Printer<'_, '_, W, E, F> {
    // What a text writes isn't said by contracts.
    ghost Took = { λ _ _. Unit {0} };

    fn put<'f>(&mut self, heard: Heard) -> Result<(), Fault<'f>> {
        self.print_missed(heard.moment())?;
        self.print_heard(&heard)?;
        self.follow(heard)
    }
}
