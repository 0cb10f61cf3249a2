//! The command `replay`.

ghost use Rattle.std.specs.Prelude.{◌≡◌, ◌≢◌, IfErr, IfSome, None};
ghost use Rattle.cmd_reporting.specs.FileNames.{format_of_file};
ghost use Rattle.cmd_reporting.specs.Statuses.{IsStopped};
ghost use Rattle.cmd_stats.specs.Units.{IsUnit};

use crate::replay::against::{Against, AgainstFrames};
use crate::replay::inputs::MaybeInput;
use crate::replay::listener::{Listener, Rules};
use crate::replay::moves::{Move, read_moves};
use crate::replay::moves_fault::MoveRowsFault;
use crate::replay::printing::Printer;
use crate::replay::replaying::replay_records;
use crate::replay::unit::ReplayUnit;
use cap_records::{CaptureFile, FileFault, Selection, open_records};
use cmd_reporting::{
    ExitStatus, Fault, FrameFile, FrameTarget, Io, Status, Target, WriterFault, create_frames,
    end_frames, frame_target, is_standard, keep_apart, open,
};
use its_unit::Limiting;
use std::alloc::Global;
use std::io::{Read, Write};
use std::rt::Files;

/// What is replayed, and to which unit.
#[derive(Clone, Copy, Debug, PartialEq, Eq)]
pub struct ReplayOptions<'a> {
    /// The name of the capture.
    pub file: &'a str,
    /// Which of its records are received.
    pub selection: Selection,
    /// The unit.
    pub unit: ReplayUnit,
    /// Whether its limits apply.
    pub limiting: Limiting,
    /// The name of the file with its moves, if it moves.
    pub moves: Option<&'a str>,
    /// With what a station sent it is compared, if it is.
    pub against: Option<Against>,
}

/// Prints what the unit would have done with the selected records of the file, each at its time.
/// `input` is standard input. Frames that the unit forwards are numbered. With `frames` they are
/// also written to that file, which is created after the capture was opened. With `against`, frames
/// from the station under test are compared with them, and the differences counted. The file of
/// moves is read before the capture is opened.
///
/// Its status can be:
///
/// - `BadArguments` before anything is opened, if nothing says the format of the file of frames or
///   its name is `-`; and before that file is created, if it is the capture or the file of moves.
/// - `Refused` if a row of moves is bad, the capture was refused, a frame doesn't fit its file or a
///   difference is an error.
/// - `Failed` if a file could not be read, created or written, standard output could not be
///   written, or memory ran out.
pub fn replay_file<'a, R: Files + AllocGlobal, I: Read + Drop, W: Write, E: Write>(
    rt: &R,
    what: &ReplayOptions<'a>,
    input: I,
    frames: Option<Target<'a>>,
    io: &mut Io<W, E>,
) -> ExitStatus
where
    R::File: Read + Write + Drop,
    requires { IsUnit what.now.unit }
    ensures alone { frames.entry ≡ None → result ≢ ExitStatus.BadArguments }
    ensures format { IfSome frames.entry (λ target. format_of_file target.to target.name.now ≡ None
        → result ≡ ExitStatus.BadArguments) }
{
    let target = match frame_target(frames) {
        Ok(target) => target,
        Err(fault) => return io.status_of(Err(fault)),
    };
    let (for_capture, for_moves) = MaybeInput::split(input, what.moves);
    let moves = match moves_of(rt, what.moves, for_moves) {
        Ok(moves) => moves,
        Err(bad_row) => return ExitStatus::from(io.status_of(Err(bad_row))),
    };
    let ended = replay_to(rt, what, moves.as_slice(), for_capture, target, io);
    io.status_of(ended)
}

/// Reads the file of moves of this name. Without a name, no moves.
fn moves_of<'a, R: Files + AllocGlobal, I: Read + Drop>(
    rt: &R,
    file: Option<&'a str>,
    input: I,
) -> Result<Vec<Move>, MoveRowsFault<'a>>
where
    R::File: Read + Drop,
{
    let Some(file) = file else {
        return Ok(Vec::new(rt.alloc()));
    };
    let reader = open(rt, file, input)?;
    read_moves(rt.alloc(), file, reader)
}

/// Opens the file, and only then creates the file of frames, if there is one.
fn replay_to<'a, R: Files + AllocGlobal, I: Read + Drop, W: Write, E: Write>(
    rt: &R,
    what: &ReplayOptions<'a>,
    moves: &[Move],
    input: I,
    target: Option<FrameTarget<'a>>,
    io: &mut Io<W, E>,
) -> Result<Status, WriterFault<'a, Fault<'a>>>
where
    R::File: Read + Write + Drop,
    requires { IsUnit what.now.unit }
    ensures alone { target.entry ≡ None → IfErr result IsStopped }
{
    let reader = open(rt, what.file, input)?;
    if let Some(target) = target {
        keep_apart(rt, target.name, what.file)?;
        if let Some(moves) = what.moves {
            keep_apart(rt, target.name, moves)?;
        }
    }
    let frames = create_frames(rt, target, 1)?;
    Ok(replay_into(rt.alloc(), what, moves, reader, frames, io)?)
}

/// Replays the file of the reader, and ends the file of frames, if there is one.
fn replay_into<'a, R: Read + Drop, F: Write + Drop, W: Write, E: Write>(
    alloc: Global,
    replay: &ReplayOptions<'a>,
    moves: &[Move],
    reader: R,
    frames: Option<FrameFile<'a, F>>,
    io: &mut Io<W, E>,
) -> Result<Status, Fault<'a>>
    requires { IsUnit replay.now.unit }
{
    let (address, explain) = (replay.unit.address, io.format.explain);
    let against = replay.against.map(|against| AgainstFrames::new(
        alloc, address, against, explain,
    ));
    let mut printer = Printer::new(alloc, is_standard(replay.file), frames, against, io)?;
    let ended = replay_lines(alloc, replay, moves, reader, &mut printer);
    end_frames(printer.file.take(), ended)
}

/// Prints one line per record, and last why the file was refused, if it was.
fn replay_lines<'a, R: Read + Drop, F: Write + Drop, W: Write, E: Write>(
    alloc: Global,
    replay: &ReplayOptions<'a>,
    moves: &[Move],
    reader: R,
    printer: &mut Printer<'_, 'a, W, E, F>,
) -> Result<Status, Fault<'a>>
    requires { IsUnit replay.now.unit }
{
    let (file, selection) = (replay.file, &replay.selection);
    let CaptureFile::Source(source) = open_records(alloc, file, selection.format, reader)? else {
        return printer.refuse(FileFault::gzip(), 0);
    };
    let mut listener = Listener {
        unit: replay.unit.begin(alloc)?,
        moves,
    };
    let rules = Rules {
        limiting: replay.limiting,
        against: replay.against.map(|against| against.mac),
    };
    let (counts, fault) = replay_records(alloc, &mut listener, &rules, selection, source, printer)?;
    let status = printer.end()?;
    let Some(fault) = fault else {
        return Ok(status);
    };
    let fault = FileFault::of(fault, file, counts.read, selection.format)?;
    printer.refuse(fault, counts.read)
}
