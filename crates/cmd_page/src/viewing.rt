//! The command `view`.

ghost use Rattle.std.specs.Prelude.{◌≡◌, ◌≢◌, IfErr, IsOk, true};
ghost use Rattle.cmd_reporting.specs.FileNames.{is_standard as names_standard};
ghost use Rattle.cmd_reporting.specs.Statuses.{IsStopped};

use crate::fault::PageFault;
use crate::folder::find_page;
use crate::limit::TooLarge;
use crate::net::{Net, open_net, write_net};
use crate::page::{Page, open_page, write_up_to_run};
use crate::run::{Shown, shown_of, write_run, write_too_large};
use crate::way::Way;
use cmd_quoting::OneLine;
use cmd_reporting::{
    Destination, ExitStatus, Fault, Io, NamedFile, Opened, OutputFault, ProgressWriter, Status,
    WriterFault, create, create_output, is_standard, open, refuse_same,
};
use sim_runs::{ResultFiles, RunFault, RunFiles, RunOptions, RunReader, read_inputs};
use std::io::{BufRead, BufReader, Read, Write};
use std::rt::Files;

/// What is shown, and where it is written.
#[derive(Clone, Copy, Debug, PartialEq, Eq)]
pub struct Viewing<'a> {
    /// The name of the run, or of the scenario that is run for it. `-` is standard input.
    pub file: &'a str,
    /// The file that is written. `-` is standard output.
    pub target: &'a str,
    /// The folder of the page, if it isn't the one beside the program.
    pub viewer: Option<&'a str>,
    /// The name of the moves with which the scenario is run, if there are any. At most one of this
    /// file and `file` is standard input.
    pub moves: Option<&'a str>,
    /// The name of the street net beneath the run, if there is one: `net.xml` of SUMO, or GeoJSON.
    pub net: Option<&'a str>,
    /// How a scenario is run: its lines are in JSON, with the notes of a radio model.
    pub options: RunOptions,
}

/// Writes the page that shows a run, with its styles, its scripts and the run in it, as one file
/// that a browser can open from any folder. A file whose name ends in `.toml`, or that doesn't
/// begin with `{`, is a scenario, which is run. So is any file with `moves`. Any other file has
/// lines that `sim --json` printed, which are copied. Only a buffer of a run is kept in memory.
///
/// Its status can be:
///
/// - `BadArguments` if the file to write is one that is read.
/// - `Refused` for a text that is not a scenario and for a bad first line of moves, before anything
///   is written, for a later bad line, and if an expectation isn't met.
/// - `Refused` for a run of more than 400 MB and a net of more than 100 MB. The page is then
///   written without them, and says how to open them. What was written to standard output stays.
/// - `Failed` if a file could not be read, created or written, memory ran out, or no page was
///   found.
pub fn view_file<R: Files + AllocGlobal, I: Read + Drop, W: Write, E: ProgressWriter>(
    rt: &R,
    viewing: &Viewing<'_>,
    input: I,
    io: &mut Io<W, E>,
) -> ExitStatus
where
    R::File: Read + Write + Drop,
    ensures { names_standard viewing.now.target.now ≡ true → result ≢ ExitStatus.BadArguments }
{
    let place = match find_page(rt, viewing.viewer) {
        Ok(place) => place,
        Err(fault) => return ExitStatus::from(io.status_of(Err(fault))),
    };
    let way = Way {
        folder: place.folder.as_str(),
        index: place.index.as_str(),
        file: viewing.file,
        moves: viewing.moves,
        net: viewing.net,
        target: viewing.target,
        format: io.format,
    };
    let ended = view_to(rt, way, &viewing.options, input, io);
    io.status_of(ended)
}

/// Opens what is read, and only then creates the file, unless the page is written to standard
/// output. Says how to open that file. If the run or the net is too large, the file is written once
/// more without them.
fn view_to<'a, R: Files + AllocGlobal, I: Read + Drop, W: Write, E: ProgressWriter>(
    rt: &R,
    way: Way<'a>,
    options: &RunOptions,
    input: I,
    io: &mut Io<W, E>,
) -> Result<Status, WriterFault<'a, PageFault<'a>>>
where
    R::File: Read + Write + Drop,
    ensures alone { names_standard way.entry.target.now ≡ true → IfErr result IsStopped }
{
    let viewed = open_viewed(rt, way, options, input)?;
    keep_target_apart(rt, way)?;
    let mut out = create_output(rt, way.target, &mut io.out)?;
    let status = match write_page(rt, way, viewed, options, &mut out, &mut io.err) {
        Err(PageFault::TooLarge(fault)) => {
            if let Destination::File(created) = out {
                drop(created);
                write_without_run(rt, way, fault)?;
            }
            return Err(WriterFault::from(PageFault::TooLarge(fault)));
        }
        written => written?,
    };
    way.or_fault(out.flush())?;
    if matches!(out, Destination::File(_)) && !options.quiet {
        let page = OneLine(way.target);
        let _ = writeln!(io.err, "geostation: {page}: open it in a browser");
    }
    Ok(status)
}

/// Refuses the file to be written if it is one of those that are read. Standard output never is.
fn keep_target_apart<'a, R: Files>(rt: &R, way: Way<'a>) -> Result<(), OutputFault<'a>>
    ensures { names_standard way.entry.target.now ≡ true → IsOk result }
{
    if is_standard(way.target) {
        return Ok(());
    }
    let read = [
        NamedFile::of(rt, way.file),
        NamedFile::of(rt, way.moves.unwrap_or(way.file)),
        NamedFile::of(rt, way.net.unwrap_or(way.file)),
    ];
    refuse_same(&[NamedFile::of(rt, way.target)], &read)
}

/// The page, the run and the street net, all open.
#[derive(Drop)]
struct Viewed<'a, F: Read + Drop, L: BufRead + Drop, M: BufRead + Drop> {
    page: Page<F>,
    shown: Shown<'a, L, M>,
    net: Option<Net<'a, F>>,
}

/// Opens the page, the street net and the run. `input` is standard input.
fn open_viewed<'a, R: Files + AllocGlobal, I: Read + Drop>(
    rt: &R,
    way: Way<'a>,
    options: &RunOptions,
    input: I,
) -> Result<
    Viewed<'a, R::File, BufReader<Opened<R::File, I>>, RunReader<R::File, I>>,
    PageFault<'a>,
>
where
    R::File: Read + Drop,
{
    let page = open_page(rt, way)?;
    let net = open_net(rt, way)?;
    let shown = open_shown(rt, way, options, input)?;
    Ok(Viewed { page, shown, net })
}

/// Opens the run: its lines or its scenario, which is read, and the first line of its moves.
fn open_shown<'a, R: Files + AllocGlobal, I: Read + Drop>(
    rt: &R,
    way: Way<'a>,
    options: &RunOptions,
    input: I,
) -> Result<Shown<'a, BufReader<Opened<R::File, I>>, RunReader<R::File, I>>, RunFault<'a>>
where
    R::File: Read + Drop,
{
    if way.moves.is_none() {
        let reader = open(rt, way.file, input)?;
        return shown_of(rt.alloc(), way.file, reader);
    }
    let files = RunFiles {
        scenario: way.file,
        moves: way.moves,
        frames: None,
        results: ResultFiles::default(),
    };
    Ok(Shown::Moved(read_inputs(rt, &files, input, options)?))
}

/// Writes the page with the run and the net in it. `CannotRead` if the page has no line for a run.
fn write_page<
    'a,
    R: Files + AllocGlobal,
    L: BufRead + Drop,
    M: BufRead + Drop,
    W: Write,
    E: ProgressWriter,
>(
    rt: &R,
    way: Way<'a>,
    viewed: Viewed<'a, R::File, L, M>,
    options: &RunOptions,
    out: &mut W,
    err: &mut E,
) -> Result<Status, PageFault<'a>>
where
    R::File: Read + Write + Drop,
{
    let Viewed {
        mut page,
        shown,
        net,
    } = viewed;
    write_start(rt, way, &mut page, out)?;
    let status = write_run(rt.alloc(), way, shown, options, out, err)?;
    if let Some(net) = net {
        write_net(way, net, out)?;
    }
    write_up_to_run(rt, way, &mut page, out)?;
    Ok(status)
}

/// Writes the page up to the line for its run. `CannotRead` if it has none.
fn write_start<'a, R: Files + AllocGlobal, W: Write>(
    rt: &R,
    way: Way<'a>,
    page: &mut Page<R::File>,
    out: &mut W,
) -> Result<(), PageFault<'a>>
where
    R::File: Read + Drop,
{
    if write_up_to_run(rt, way, page, out)? {
        Ok(())
    } else {
        Err(PageFault::from(Fault::CannotRead(way.index)))
    }
}

/// Creates the file once more, and writes the page without a run to it, which says what is too
/// large.
fn write_without_run<'a, R: Files + AllocGlobal>(
    rt: &R,
    way: Way<'a>,
    fault: TooLarge<'a>,
) -> Result<(), PageFault<'a>>
where
    R::File: Read + Write + Drop,
{
    let mut page = open_page(rt, way)?;
    let mut created = create(rt, way.target)?;
    write_start(rt, way, &mut page, &mut created)?;
    write_too_large(way, fault, &mut created)?;
    write_up_to_run(rt, way, &mut page, &mut created)?;
    Ok(way.or_fault(created.flush())?)
}
