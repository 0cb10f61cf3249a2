//! The program over the runtime: reads the arguments, and runs their command.

ghost use Rattle.std.specs.Prelude.{IfOk};
ghost use Rattle.cmd_stats.specs.Units.{IsUnit};
ghost use Rattle.its_world.specs.Events.{IsConfig};

use crate::arguments;
use crate::fault::ArgumentFault;
use crate::pipe::{CLOSED_STATUS, Pipe};
use crate::subcommand::{Convert, Import, Replay, Show, Subcommand};
use cmd_arguments::StationArguments;
use cmd_arguments::terminal::{Console, Meter, Screen, ShownReading};
use cmd_captures::{check_file, convert_file, import_file, show_file};
use cmd_follow::follow_files;
use cmd_mesh::mesh_file;
use cmd_page::{Viewing, view_file};
use cmd_pipe::run_contending_station;
use cmd_quoting::Quoted;
use cmd_reporting::{ExitStatus, Fault, Io, OutputFormat, ProgressWriter, Status};
use cmd_stats::replay::{PortList, ReplayOptions, ReplayUnit, replay_file};
use cmd_stats::stats_file;
use cmd_verdict::verdict_file;
use its_contention::ContentionRule;
use its_words::keys::{Fields, KeyFault, WrongOf, WrongValue};
use its_world::Config;
use sim_runs::simulate_file;
use sim_scenario::events::read_station;
use sim_settings::SettingFault;
use std::alloc::{AllocError, Global};
use std::env::Args;
use std::io;
use std::io::{BufWriter, Eprint, ErrorKind, Read, Write};
use std::net::Net;
use std::rt::{Clock, Files};

/// Runs the command that the arguments name, and flushes all that it prints. The first argument is
/// the program's own name. `input` is standard input, which is read if a file is `-`. `console`
/// says whether `out` and `err` are terminals. Returns the exit status: that of the command, or 141
/// if the reader of standard output has closed it.
///
/// If the arguments could not be collected, one is not UTF-8, which is refused, or memory ran out.
pub fn run<
    R: Files + Net + Clock + Eprint + AllocGlobal,
    I: Read + Drop,
    W: Write + Drop,
    E: Write,
>(rt: &R, arguments: io::Result<Args>, input: I, out: W, err: &mut E, console: Console) -> u8
where
    R::File: Read + Write + Drop,
{
    match collected(rt, arguments) {
        Ok(arguments) => {
            let mut pipe = Pipe::new(out);
            let arguments = arguments.as_slice();
            let status = run_buffered(rt, arguments, input, &mut pipe, err, console);
            if pipe.is_closed() && status == ExitStatus::Ended(Status::Failed) {
                CLOSED_STATUS
            } else {
                status.code()
            }
        }
        Err(fault) => refuse(fault, err).code(),
    }
}

/// Collects the arguments.
fn collected<'f, R: AllocGlobal>(
    rt: &R,
    arguments: io::Result<Args>,
) -> Result<Vec<String>, ArgumentFault<'f>> {
    match arguments {
        Ok(arguments) => arguments
            .collect(rt.alloc())
            .map_err(|_| ArgumentFault::Stopped(Fault::OutOfMemory(AllocError))),
        Err(error) if error.kind() == ErrorKind::InvalidData => Err(ArgumentFault::NotUtf8),
        Err(_) => Err(ArgumentFault::Stopped(Fault::OutOfMemory(AllocError))),
    }
}

/// Ends the program before any command, with this fault.
fn refuse<E: Write>(fault: ArgumentFault<'_>, err: &mut E) -> ExitStatus {
    let mut io = Io {
        out: (),
        err,
        format: OutputFormat::default(),
    };
    io.status_of(Err(fault))
}

/// Runs the command that the arguments name, with a buffer before standard output.
fn run_buffered<
    R: Files + Net + Clock + Eprint + AllocGlobal,
    I: Read + Drop,
    W: Write + Drop,
    E: Write,
>(rt: &R, arguments: &[String], input: I, out: W, err: &mut E, console: Console) -> ExitStatus
where
    R::File: Read + Write + Drop,
{
    let Ok(mut out) = BufWriter::new(rt.alloc(), out) else {
        return refuse(ArgumentFault::from(Fault::OutOfMemory(AllocError)), err);
    };
    let status = dispatch(rt, arguments, input, &mut out, err, console);
    match out.flush() {
        Ok(()) => status,
        Err(_) => ExitStatus::Ended(Status::Failed),
    }
}

/// Runs the command that the arguments name, or prints help or a refusal if they name none.
fn dispatch<R: Files + Net + Clock + Eprint + AllocGlobal, I: Read + Drop, W: Write, E: Write>(
    rt: &R,
    arguments: &[String],
    input: I,
    out: &mut W,
    err: &mut E,
    console: Console,
) -> ExitStatus
where
    R::File: Read + Write + Drop,
{
    match arguments::read(rt.alloc(), arguments, console) {
        Ok((subcommand, format)) => { run_shown(rt, &subcommand, format, input, out, err) }
        Err(error) => answer(&error, out, err),
    }
}

/// Runs a subcommand, with column heads and colours if its lines have them, and with its progress
/// on a terminal.
fn run_shown<R: Files + Net + Clock + Eprint + AllocGlobal, I: Read + Drop, W: Write, E: Write>(
    rt: &R,
    subcommand: &Subcommand<'_>,
    format: OutputFormat,
    input: I,
    out: &mut W,
    err: &mut E,
) -> ExitStatus
where
    R::File: Read + Write + Drop,
{
    let mut screen = Screen::plain(rt.alloc(), out)
        .headed(subcommand.heads())
        .painted(subcommand.painter());
    let mut meter = Meter::new(rt, err, subcommand.shows_progress());
    let status = run_subcommand(rt, subcommand, format, input, &mut screen, &mut meter);
    let _ = meter.flush();
    status
}

/// Runs a subcommand.
fn run_subcommand<
    R: Files + Net + Clock + Eprint + AllocGlobal,
    I: Read + Drop,
    W: Write,
    E: ProgressWriter,
>(
    rt: &R,
    subcommand: &Subcommand<'_>,
    format: OutputFormat,
    input: I,
    out: &mut W,
    err: &mut E,
) -> ExitStatus
where
    R::File: Read + Write + Drop,
{
    match subcommand {
        Subcommand::Show(show) => show_records(rt, show, input, &mut Io { out, err, format }),
        Subcommand::Check(records) => {
            let mut io = Io { out, err, format };
            let ended = check_file(rt, records.file, input, &records.selection, &mut io);
            ExitStatus::Ended(ended)
        }
        Subcommand::Stats(records, printed) => {
            let mut io = Io { out, err, format };
            let ended = stats_file(
                rt,
                records.file,
                input,
                &records.selection,
                *printed,
                &mut io,
            );
            ExitStatus::Ended(ended)
        }
        Subcommand::Follow(what) => {
            let mut io = Io { out, err, format };
            ExitStatus::Ended(follow_files(rt, what, input, &mut io))
        }
        Subcommand::Convert(convert) => {
            convert_records(rt, convert, input, &mut Io { out, err, format })
        }
        Subcommand::Import(import) => {
            import_lines(rt, import, input, &mut Io { out, err, format })
        }
        Subcommand::Sim(sim) => {
            let mut io = Io { out, err, format };
            simulate_file(rt, &sim.files, input, &sim.options, &mut io)
        }
        Subcommand::View(viewing) => { view_file(rt, viewing, input, &mut Io { out, err, format }) }
        Subcommand::Mesh(mesh) => {
            let mut io = Io { out, err, format };
            mesh_file(rt, mesh.file, input, mesh.frames, mesh.options, &mut io)
        }
        Subcommand::Replay(replay) => {
            replay_records(rt, replay, input, &mut Io { out, err, format })
        }
        Subcommand::Verdict(what) => {
            let mut io = Io { out, err, format };
            ExitStatus::Ended(verdict_file(rt, what, input, &mut io))
        }
        Subcommand::Station(station, rule) => {
            serve(
                rt.alloc(),
                station,
                *rule,
                input,
                &mut Io { out, err, format },
            )
        }
        Subcommand::BadSetting(fault) => {
            refuse(setting_fault(rt.alloc(), *fault, format.explain), err)
        }
    }
}

/// `show`.
fn show_records<R: Files + AllocGlobal, I: Read + Drop, W: Write, E: Write>(
    rt: &R,
    show: &Show<'_>,
    input: I,
    io: &mut Io<W, E>,
) -> ExitStatus
where
    R::File: Read + Drop,
{
    let records = &show.records;
    show_file(
        rt,
        records.file,
        input,
        &records.selection,
        &show.showing,
        io,
    )
}

/// `convert`, which shows its progress.
fn convert_records<R: Files + Clock + Eprint + AllocGlobal, I: Read + Drop, W: Write, E: Write>(
    rt: &R,
    convert: &Convert<'_>,
    input: I,
    io: &mut Io<W, E>,
) -> ExitStatus
where
    R::File: Read + Write + Drop,
{
    let reading = ShownReading::of(rt, convert.conversion.file, convert.progress);
    convert_file(&reading, convert.conversion, &convert.selection, input, io)
}

/// `import`, which shows its progress.
fn import_lines<R: Files + Clock + Eprint + AllocGlobal, I: Read + Drop, W: Write, E: Write>(
    rt: &R,
    import: &Import<'_>,
    input: I,
    io: &mut Io<W, E>,
) -> ExitStatus
where
    R::File: Read + Write + Drop,
{
    let reading = ShownReading::of(rt, import.file, import.progress);
    import_file(&reading, import.file, input, import.target, io)
}

/// `replay`.
fn replay_records<R: Files + AllocGlobal, I: Read + Drop, W: Write, E: Write>(
    rt: &R,
    replay: &Replay<'_>,
    input: I,
    io: &mut Io<W, &mut E>,
) -> ExitStatus
where
    R::File: Read + Write + Drop,
{
    match unit_of(&replay.station, replay.ports) {
        Ok(unit) => {
            let options = ReplayOptions {
                file: replay.records.file,
                selection: replay.records.selection,
                unit,
                limiting: replay.limiting,
                moves: replay.moves,
                against: replay.against,
            };
            replay_file(rt, &options, input, replay.frames, io)
        }
        Err(fault) => refuse(fault, io.err),
    }
}

/// Runs the station that these arguments describe, on the lines of standard input.
fn serve<I: Read + Drop, W: Write, E: Write>(
    alloc: Global,
    station: &StationArguments<'_>,
    rule: Option<ContentionRule>,
    input: I,
    io: &mut Io<&mut W, &mut E>,
) -> ExitStatus {
    match config_of(station) {
        Ok(config) => {
            let ended = run_contending_station(alloc, &config, rule, input, io.out, io.err);
            ExitStatus::Ended(ended)
        }
        Err(fault) => refuse(fault, io.err),
    }
}

/// Returns the station that these arguments describe, with these ports open from its start.
fn unit_of<'f>(
    station: &'f StationArguments<'_>,
    ports: PortList,
) -> Result<ReplayUnit, ArgumentFault<'f>>
    ensures { IfOk result IsUnit }
{
    let config = config_of(station)?;
    Ok(ReplayUnit {
        address: config.address,
        place: config.place,
        capacity: config.capacity,
        remember: config.remember,
        ports,
    })
}

/// Returns the configuration of the station that these arguments describe. The fault has the first
/// invalid key.
fn config_of<'f>(station: &'f StationArguments<'_>) -> Result<Config, ArgumentFault<'f>>
    ensures { IfOk result IsConfig }
{
    match read_station(station) {
        Ok(config) => Ok(config),
        Err(KeyFault::Refused(key, wrong)) => {
            let wrong = WrongOf(key, wrong);
            let value = station.text(key.word()).map(Quoted);
            Err(ArgumentFault::Key(key, WrongValue { wrong, value }))
        }
        Err(KeyFault::OutOfMemory) => Err(ArgumentFault::Stopped(Fault::OutOfMemory(AllocError))),
    }
}

/// Returns the refusal of a value of the radio model that was given in addition to a scenario, with
/// its reason if codes are explained.
fn setting_fault<'a>(alloc: Global, fault: SettingFault<'a>, explain: bool) -> ArgumentFault<'a> {
    if !explain {
        return ArgumentFault::Setting(fault, None);
    }
    match fault.reason(alloc) {
        Ok(reason) => ArgumentFault::Setting(fault, reason),
        Err(error) => ArgumentFault::Stopped(Fault::OutOfMemory(error)),
    }
}

/// Prints the result for arguments that named no command: help on standard output, a refusal on
/// standard error.
fn answer<W: Write, E: Write>(error: &clap::Error, out: &mut W, err: &mut E) -> ExitStatus {
    if error.kind() == clap::error::ErrorKind::OutOfMemory {
        return refuse(ArgumentFault::from(Fault::OutOfMemory(AllocError)), err);
    }
    if error.use_stderr() {
        let _ = write!(err, "{error}");
        return ExitStatus::BadArguments;
    }
    match write!(out, "{error}") {
        Ok(()) => ExitStatus::Ended(Status::Done),
        Err(_) => ExitStatus::Ended(Status::Failed),
    }
}
