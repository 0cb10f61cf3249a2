//! The command `mesh`.

ghost use Rattle.std.specs.Prelude.{◌≡◌, ◌≢◌, All, IfErr, IfOk, IfSome, IsErrAnd, None, map, IsTrue};
ghost use Rattle.cmd_reporting.specs.FileNames.{format_of_file};
ghost use Rattle.cmd_reporting.specs.Statuses.{IsOutputFault, IsStopped};
ghost use Rattle.its_world.specs.Events.{config_of, event_of};
ghost use Rattle.sim_scenario.specs.Events.{FitsEvent};
ghost use Rattle.sim_scenario.specs.Scenarios.{IsPlain, plain_events};
ghost use Rattle.cmd_mesh.specs.Calls.{IsMeshRun};

use crate::fault::MeshFault;
use crate::mesh::Mesh;
use crate::sockets::Sockets;
use crate::udp::UdpSockets;
use cmd_reporting::{
    ExitStatus, FrameFile, Io, Status, Target, WriterFault, create_frames, end_frames,
    frame_target, keep_apart, open,
};
use its_world::Event;
use sim_runs::{read_scenario, report_unknown};
use sim_scenario::{AirTable, PlainTimeline, Reading, Scenario, Timeline};
use std::alloc::Global;
use std::io;
use std::io::{Read, Write};
use std::net::Net;
use std::rt::Files;

/// The most stations of a scenario.
const MOST_STATIONS: usize = 64;

/// How a mesh is run.
#[derive(Clone, Copy, Debug, Default, PartialEq, Eq)]
pub struct MeshOptions {
    /// Whether a call that is refused changes the status from `Done` to `Refused`. Unknown keys of
    /// the scenario are then refused too.
    pub strict: bool,
}

/// Runs the scenario in the file, with at most 64 stations. Each has a UDP socket on 127.0.0.1 at a
/// port that the system picks. Prints one line per event except `deliver`, and per datagram that
/// arrives: its time, its station and its result. In JSON a line of the stations comes first.
/// `input` is standard input, which is read if the file is `-`. With `frames` each frame that a
/// station sends is also written to that file, at the time of its line. That file is created after
/// the scenario was read.
///
/// Its status can be:
///
/// - `BadArguments` before anything is opened, if nothing says the format of the file of frames or
///   its name is `-`; and before that file is created, if it is the scenario's own file.
/// - `Refused` for a text that is not a scenario, if a frame doesn't fit its file and, with
///   `strict`, if a call was refused and nothing failed.
/// - `Failed` if a file could not be read, created or written, a socket could not be made, standard
///   output could not be written, or memory ran out. The run ends there.
/// - `Failed` if a send or a receive failed. That is reported, and the run goes on.
pub fn mesh_file<R: Files + Net + AllocGlobal, I: Read + Drop, W: Write, E: Write>(
    rt: &R,
    file: &str,
    input: I,
    frames: Option<Target<'_>>,
    options: MeshOptions,
    io: &mut Io<W, E>,
) -> ExitStatus
where
    R::File: Read + Write + Drop,
    ensures alone { frames.entry ≡ None → result ≢ ExitStatus.BadArguments }
    ensures format { IfSome frames.entry (λ target.
        format_of_file target.to target.name.now ≡ None → result ≡ ExitStatus.BadArguments) }
{
    let ended = mesh_named(rt, file, input, frames, options, io);
    io.status_of(ended)
}

/// Reads the scenario, and only then creates the file of frames, if there is one, before a socket
/// is made.
fn mesh_named<'a, R: Files + Net + AllocGlobal, I: Read + Drop, W: Write, E: Write>(
    rt: &R,
    file: &'a str,
    input: I,
    frames: Option<Target<'a>>,
    options: MeshOptions,
    io: &mut Io<W, E>,
) -> Result<Status, WriterFault<'a, MeshFault<'a>>>
where
    R::File: Read + Write + Drop,
    ensures alone { frames.entry ≡ None → IfErr result IsStopped }
    ensures format { IfSome frames.entry (λ target.
        format_of_file target.to target.name.now ≡ None → IsErrAnd result IsOutputFault) }
{
    let target = frame_target(frames)?;
    let reader = open(rt, file, input)?;
    let scenario = read(rt.alloc(), file, reader, options)?;
    if let Some(target) = target {
        keep_apart(rt, target.name, file)?;
    }
    let frames = create_frames(rt, target, scenario.stations.len())?;
    let mut sockets = UdpSockets::new(rt, rt.alloc());
    Ok(run_mesh(rt.alloc(), scenario, frames, options, &mut sockets, io)?)
}

/// Runs the command over a reader, with sockets of which none was made yet. `file` is the name of
/// the scenario. It ends as `mesh_file` without frames does.
pub fn mesh_over<R: Read + Drop, S: Sockets, W: Write, E: Write>(
    alloc: Global,
    file: &str,
    reader: R,
    options: MeshOptions,
    sockets: &mut S,
    io: &mut Io<W, E>,
) -> Status {
    let ended = mesh_read(alloc, file, reader, options, sockets, io);
    io.status_of(ended)
}

/// Runs the command as `mesh_over` does, and returns the fault that ends it.
fn mesh_read<'a, R: Read + Drop, S: Sockets, W: Write, E: Write>(
    alloc: Global,
    file: &'a str,
    reader: R,
    options: MeshOptions,
    sockets: &mut S,
    io: &mut Io<W, E>,
) -> Result<Status, MeshFault<'a>> {
    let scenario = read(alloc, file, reader, options)?;
    let frames: Option<FrameFile<'_, io::Sink>> = None;
    run_mesh(alloc, scenario, frames, options, sockets, io)
}

/// Reads the scenario, whose name is `file`, without a radio model.
fn read<'a, R: Read + Drop>(
    alloc: Global,
    file: &'a str,
    reader: R,
    options: MeshOptions,
) -> Result<Scenario, MeshFault<'a>>
    ensures { IfOk result (λ scenario. IsPlain scenario.timeline) }
{
    let reading = Reading {
        strict: options.strict,
        air: AirTable::Ignored,
        ..Reading::default()
    };
    Ok(read_scenario(alloc, file, reader, MOST_STATIONS, &reading)?)
}

/// Returns the events of a scenario without a radio model.
fn events_of(timeline: Timeline) -> Vec<Event>
    requires { IsPlain timeline }
    ensures events { result.items ≡ plain_events timeline }
    ensures ranges { All FitsEvent result.items }
{
    match timeline {
        Timeline::Plain(PlainTimeline { events }) => events,
        _ => unreachable!(),
    }
}

/// Reports unknown keys of a scenario, runs it, and writes the frames of its stations to the file, if
/// there is one.
fn run_mesh<'f, F: Write + Drop, S: Sockets, W: Write, E: Write>(
    alloc: Global,
    scenario: Scenario,
    frames: Option<FrameFile<'f, F>>,
    options: MeshOptions,
    sockets: &mut S,
    io: &mut Io<W, E>,
) -> Result<Status, MeshFault<'f>>
    requires { IsPlain scenario.timeline }
    ensures status { frames.entry ≡ None → IfOk result
        (λ status. status ≡ Status.Refused → IsTrue options.strict) }
    ensures run { frames.entry ≡ None → IfOk result (
        IsMeshRun (map config_of scenario.stations.items)
        (map event_of (plain_events scenario.timeline)) options.strict) }
{
    report_unknown(&scenario, &mut io.err);
    let Scenario {
        stations,
        timeline,
        ..
    } = scenario;
    let events = events_of(timeline);
    let mut mesh = match Mesh::new(alloc, stations.as_slice(), sockets, io) {
        Ok(mesh) => mesh,
        Err(fault) => {
            // What the file begins with is written out, and the fault is reported.
            let _ = end_frames(frames, Ok(Status::Failed));
            return Err(fault);
        }
    };
    if frames.is_none() {
        return Ok(mesh.run(events, options.strict)?);
    }
    mesh.file = frames;
    let ran = mesh.run(events, options.strict);
    Ok(end_frames(mesh.file.take(), ran)?)
}
