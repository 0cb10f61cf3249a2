//! The subcommands, and how arguments are read as them.

ghost use Rattle.std.specs.Prelude.{◌≡◌, is_some};
ghost use Rattle.geostation.specs.Subcommands.{has_progress, is_headed, painter_of as painter_in};

use cap_pcap::Format;
use clap::ArgMatches;
use cmd_arguments::terminal::{Coloring, Console, Painter};
use cmd_arguments::{
    BadArgument, StationArguments, against_of, claims_of, count_of, duties_of, fields_of,
    following_of, limiting_of, ports_of, printing_of, rule_of, selection_of, selection_to_any_port,
    time_of, times_of,
};
use cmd_captures::{Conversion, Field, Selection, Showing};
use cmd_follow::FollowOptions;
use cmd_mesh::MeshOptions;
use cmd_page::Viewing;
use cmd_reporting::{OutputFormat, Target, is_standard};
use cmd_stats::PrintedSources;
use cmd_stats::replay::{Against, Limiting, PortList};
use cmd_verdict::VerdictOptions;
use its_contention::ContentionRule;
use sim_runs::{ResultFiles, RunFiles, RunOptions, VERSION};
use sim_settings::{AirSettings, SettingFault};
use std::alloc::Global;

/// What the program is to do.
#[derive(Drop)]
pub enum Subcommand<'a> {
    /// To show records.
    Show(Show<'a>),
    /// To check records.
    Check(ChosenRecords<'a>),
    /// To count records, and to print at most this many sources.
    Stats(ChosenRecords<'a>, PrintedSources),
    /// To follow packets over captures.
    Follow(FollowOptions<'a>),
    /// To write records to another file.
    Convert(Convert<'a>),
    /// To make a capture from lines.
    Import(Import<'a>),
    /// To run a scenario.
    Sim(Sim<'a>),
    /// To write the page with a run in it.
    View(Viewing<'a>),
    /// To run a scenario over sockets.
    Mesh(MeshRun<'a>),
    /// To replay records to one station.
    Replay(Replay<'a>),
    /// To find rules that a station breaks in a capture.
    Verdict(VerdictOptions<'a>),
    /// To run one station, which these arguments describe, and which contends by this rule, if one
    /// is given.
    Station(StationArguments<'a>, Option<ContentionRule>),
    /// To refuse a value of the radio model that was given in addition to a scenario.
    BadSetting(SettingFault<'a>),
}

/// The selected records of a capture.
#[derive(Clone, Copy)]
pub struct ChosenRecords<'a> {
    /// The capture's file.
    pub file: &'a str,
    /// Which of its records.
    pub selection: Selection,
}

/// `show`.
#[derive(Drop)]
pub struct Show<'a> {
    pub records: ChosenRecords<'a>,
    pub showing: Showing,
    /// How lines of text are coloured, if they are.
    pub painter: Option<Painter>,
}

/// `convert`.
#[derive(Clone, Copy)]
pub struct Convert<'a> {
    pub conversion: Conversion<'a>,
    pub selection: Selection,
    /// Whether it shows its progress.
    pub progress: bool,
}

/// `import`.
#[derive(Clone, Copy)]
pub struct Import<'a> {
    /// The file of the lines.
    pub file: &'a str,
    /// The capture that is made.
    pub target: Target<'a>,
    /// Whether it shows its progress.
    pub progress: bool,
}

/// `sim`: the files of the run, and how it is run.
#[derive(Clone, Copy)]
pub struct Sim<'a> {
    pub files: RunFiles<'a>,
    pub options: RunOptions,
    /// How lines of text are coloured, if they are.
    pub painter: Option<Painter>,
}

/// `mesh`.
#[derive(Clone, Copy)]
pub struct MeshRun<'a> {
    /// The scenario.
    pub file: &'a str,
    /// The file of frames, if they are written.
    pub frames: Option<Target<'a>>,
    pub options: MeshOptions,
    /// Whether a line of column heads comes before the lines.
    pub heads: bool,
}

/// `replay`.
#[derive(Clone, Copy)]
pub struct Replay<'a> {
    pub records: ChosenRecords<'a>,
    /// The station.
    pub station: StationArguments<'a>,
    /// Its ports.
    pub ports: PortList,
    /// The file of the frames that it forwards, if they are written.
    pub frames: Option<Target<'a>>,
    /// Whether the limits of a unit apply.
    pub limiting: Limiting,
    /// The file with its moves, if it moves.
    pub moves: Option<&'a str>,
    /// With what a station sent it is compared, if it is.
    pub against: Option<Against>,
}

impl Subcommand<'_> {
    /// Returns the column heads before its lines, if there are any that it doesn't print itself.
    pub fn heads(&self) -> Option<&'static str>
        ensures { is_some result ≡ is_headed self.now }
    {
        match self {
            Subcommand::Mesh(mesh) if mesh.heads => Some("time station result"),
            _ => None,
        }
    }

    /// Returns how its lines of text are coloured, if they are.
    pub fn painter(&self) -> Option<Painter>
        ensures { result ≡ painter_in self.now }
    {
        match self {
            Subcommand::Show(show) => show.painter,
            Subcommand::Sim(sim) => sim.painter,
            _ => None,
        }
    }

    /// Whether it shows its progress on standard error.
    pub fn shows_progress(&self) -> bool
        ensures { result ≡ has_progress self.now }
    {
        match self {
            Subcommand::Convert(convert) => convert.progress,
            Subcommand::Import(import) => import.progress,
            Subcommand::Sim(sim) => sim.options.progress,
            Subcommand::View(viewing) => viewing.options.progress,
            _ => false,
        }
    }
}

/// Returns the subcommand that was matched, for a program with these streams. A subcommand and its
/// arguments are required, so there is one. Returns the fault of the first invalid value.
pub(crate) fn subcommand_of<'a>(
    alloc: Global,
    matches: &ArgMatches<'a>,
    console: Console,
) -> Result<Option<Subcommand<'a>>, BadArgument<'a>> {
    let Some((name, inner)) = matches.subcommand() else {
        return Ok(None);
    };
    match name {
        "show" | "check" | "stats" | "convert" => over_capture(alloc, name, inner, console),
        "station" => {
            let rule = rule_of(inner)?;
            match StationArguments::of(inner) {
                Some(station) => Ok(Some(Subcommand::Station(station, rule))),
                None => Ok(None),
            }
        }
        "follow" => {
            let what = following_of(alloc, inner, format_of(inner, "format"))?;
            Ok(Some(Subcommand::Follow(what)))
        }
        "replay" => replaying(inner),
        "verdict" => judging(inner),
        "sim" => simulating(inner, console),
        "view" => viewing(inner, console),
        _ => Ok(other(name, inner, console)),
    }
}

/// Returns how the lines of the subcommand that was matched are printed.
pub(crate) fn matched_format(matches: &ArgMatches<'_>, console: Console) -> OutputFormat {
    match matches.subcommand() {
        Some((name, inner)) => output_format_of(name, inner, console),
        None => OutputFormat::default(),
    }
}

/// Returns how the lines of the command with this name are printed. Codes are explained with
/// `--explain` and, except in JSON, on a terminal: both streams have to be one, or only standard
/// error if the command writes a file and no lines. With `--no-explain` they never are. An option
/// that a command doesn't have counts as not given.
fn output_format_of(name: &str, matches: &ArgMatches<'_>, console: Console) -> OutputFormat {
    let json = matches.get_flag("json");
    let is_watched = match name {
        "convert" | "import" | "view" => console.err,
        _ => console.explains_lines(),
    };
    let explain = matches.get_flag("explain") || (is_watched && !json);
    OutputFormat {
        json,
        explain: explain && !matches.get_flag("no-explain"),
    }
}

/// Returns how a command's lines of text are coloured, if they are.
fn painter_of(matches: &ArgMatches<'_>, console: Console, painter: Painter) -> Option<Painter> {
    let coloring = match matches.get_str("color") {
        Some("always") => Coloring::Always,
        Some("never") => Coloring::Never,
        _ => Coloring::Auto,
    };
    let are_words = !matches.get_flag("json") && !matches.get_flag("summary");
    (are_words && console.is_colored(coloring)).then_some(painter)
}

/// A subcommand over the records of a capture.
fn over_capture<'a>(
    alloc: Global,
    name: &str,
    matches: &ArgMatches<'a>,
    console: Console,
) -> Result<Option<Subcommand<'a>>, BadArgument<'a>> {
    let Some(file) = file_of(matches) else {
        return Ok(None);
    };
    let selection = selection_of(matches, format_of(matches, "format"))?;
    match name {
        "show" => {
            let fields = fields_of(alloc, matches)?;
            Ok(Some(showing(file, selection, fields, matches, console)))
        }
        "stats" => {
            let printed = PrintedSources {
                top: count_of(matches, "top")?,
                own: matches.get_flag("own"),
            };
            Ok(Some(Subcommand::Stats(ChosenRecords { file, selection }, printed)))
        }
        "check" => Ok(Some(Subcommand::Check(ChosenRecords { file, selection }))),
        _ => Ok(converting(file, selection, matches, console)),
    }
}

/// `show`. Rows of values are never coloured.
fn showing<'a>(
    file: &'a str,
    selection: Selection,
    fields: Option<Vec<Field>>,
    matches: &ArgMatches<'a>,
    console: Console,
) -> Subcommand<'a> {
    let painter = painter_of(matches, console, Painter::Records).filter(|_| fields.is_none());
    Subcommand::Show(Show {
        records: ChosenRecords { file, selection },
        showing: Showing {
            time: time_of(matches),
            fields,
        },
        painter,
    })
}

/// Returns the name of the file that is made, by an option or by position.
fn output_of<'a>(matches: &ArgMatches<'a>) -> Option<&'a str> {
    matches.get_str("output").or_else(|| matches.get_str("OUT"))
}

/// `convert`.
fn converting<'a>(
    file: &'a str,
    selection: Selection,
    matches: &ArgMatches<'a>,
    console: Console,
) -> Option<Subcommand<'a>> {
    let name = output_of(matches)?;
    Some(Subcommand::Convert(Convert {
        conversion: Conversion {
            file,
            target: Target {
                name,
                to: format_of(matches, "to"),
            },
            frames_only: matches.get_flag("frames-only"),
        },
        selection,
        progress: shows_progress(matches, console, name),
    }))
}

/// `import`.
fn importing<'a>(file: &'a str, matches: &ArgMatches<'a>, console: Console) -> Option<Import<'a>> {
    let name = output_of(matches)?;
    Some(Import {
        file,
        target: Target {
            name,
            to: format_of(matches, "to"),
        },
        progress: shows_progress(matches, console, name),
    })
}

/// Whether a command that writes the file with this name shows its progress.
fn shows_progress(matches: &ArgMatches<'_>, console: Console, target: &str) -> bool {
    !matches.get_flag("quiet") && console.shows_progress(is_standard(target))
}

/// `replay`: its `--port` is the station's.
fn replaying<'a>(matches: &ArgMatches<'a>) -> Result<Option<Subcommand<'a>>, BadArgument<'a>> {
    let (Some(file), Some(station)) = (file_of(matches), StationArguments::of(matches)) else {
        return Ok(None);
    };
    let selection = selection_to_any_port(matches, format_of(matches, "format"))?;
    Ok(Some(Subcommand::Replay(Replay {
        records: ChosenRecords { file, selection },
        station,
        ports: ports_of(matches)?,
        frames: frames_of(matches),
        limiting: limiting_of(matches),
        moves: matches.get_str("moves"),
        against: against_of(matches)?,
    })))
}

/// `verdict`.
fn judging<'a>(matches: &ArgMatches<'a>) -> Result<Option<Subcommand<'a>>, BadArgument<'a>> {
    let (Some(station), Some(capture)) = (matches.get_str("IUT"), matches.get_str("CAPTURE")) else {
        return Ok(None);
    };
    let (since, until) = times_of(matches)?;
    Ok(Some(Subcommand::Verdict(VerdictOptions {
        station,
        capture,
        format: format_of(matches, "format"),
        assumed: claims_of(matches)?,
        duties: duties_of(matches)?,
        printing: printing_of(matches),
        since,
        until,
        time: time_of(matches),
        strict: matches.get_flag("strict"),
        version: VERSION,
    })))
}

/// Returns the file of frames, if one is asked for.
fn frames_of<'a>(matches: &ArgMatches<'a>) -> Option<Target<'a>> {
    let to = format_of(matches, "to");
    matches.get_str("frames").map(|name| Target { name, to })
}

/// Any other subcommand over a file.
fn other<'a>(name: &str, inner: &ArgMatches<'a>, console: Console) -> Option<Subcommand<'a>> {
    let frames = frames_of(inner);
    let file = file_of(inner)?;
    match name {
        "import" => importing(file, inner, console).map(Subcommand::Import),
        "mesh" => Some(Subcommand::Mesh(MeshRun {
            file,
            frames,
            options: MeshOptions {
                strict: inner.get_flag("strict"),
            },
            heads: console.out && !inner.get_flag("json"),
        })),
        _ => None,
    }
}

/// `view`. The street net is a file, and at most one of the others is standard input.
fn viewing<'a>(
    matches: &ArgMatches<'a>,
    console: Console,
) -> Result<Option<Subcommand<'a>>, BadArgument<'a>> {
    let Some(file) = file_of(matches) else {
        return Ok(None);
    };
    let net = matches.get_str("net");
    if net.is_some_and(|name| is_standard(name)) {
        return Err(BadArgument::Value("net", "-", "a file"));
    }
    let target = matches.get_str("output").unwrap_or("-");
    Ok(Some(Subcommand::View(Viewing {
        file,
        target,
        viewer: matches.get_str("viewer"),
        moves: moves_of(matches, file, "a file, as RUN is standard input")?,
        net,
        options: RunOptions {
            progress: shows_progress(matches, console, target),
            quiet: matches.get_flag("quiet"),
            ..RunOptions::default()
        },
    })))
}

/// Returns the file of moves, if there is one. It is refused if both it and the file that is run
/// are standard input. `wanted` says this in the message.
fn moves_of<'a>(
    matches: &ArgMatches<'a>,
    file: &str,
    wanted: &'static str,
) -> Result<Option<&'a str>, BadArgument<'a>> {
    let moves = matches.get_str("moves");
    if is_standard(file) && moves.is_some_and(|name| is_standard(name)) {
        return Err(BadArgument::Value("moves", "-", wanted));
    }
    Ok(moves)
}

/// `sim`, or the refusal of the first invalid value of its radio model. At most one of the scenario
/// and the moves is standard input.
fn simulating<'a>(
    matches: &ArgMatches<'a>,
    console: Console,
) -> Result<Option<Subcommand<'a>>, BadArgument<'a>> {
    let Some(scenario) = file_of(matches) else {
        return Ok(None);
    };
    let moves = moves_of(matches, scenario, "a file, as SCENARIO is standard input")?;
    Ok(Some(match settings_of(matches) {
        Ok(settings) => Subcommand::Sim(Sim {
            files: files_of(matches, scenario, moves),
            options: options_of(matches, settings, console),
            painter: painter_of(matches, console, Painter::Events),
        }),
        Err(fault) => Subcommand::BadSetting(fault),
    }))
}

/// The files of a run.
fn files_of<'a>(
    matches: &ArgMatches<'a>,
    scenario: &'a str,
    moves: Option<&'a str>,
) -> RunFiles<'a> {
    RunFiles {
        scenario,
        moves,
        frames: frames_of(matches),
        results: ResultFiles {
            sends: matches.get_str("sends"),
            stations: matches.get_str("stations"),
            load: matches.get_str("load"),
        },
    }
}

/// Returns the options of a run.
fn options_of(matches: &ArgMatches<'_>, settings: AirSettings, console: Console) -> RunOptions {
    let summary = matches.get_flag("summary");
    let quiet = matches.get_flag("quiet");
    RunOptions {
        summary,
        notes: matches.get_flag("notes"),
        heads: console.out,
        progress: !quiet && console.shows_progress(!summary),
        quiet,
        strict: matches.get_flag("strict"),
        settings,
    }
}

/// Returns the values of the radio model that are given in addition to the scenario.
fn settings_of<'a>(matches: &ArgMatches<'a>) -> Result<AirSettings, SettingFault<'a>> {
    let mut settings = AirSettings::default();
    for setting in matches.get_strs("set").unwrap_or(&[]) {
        settings.set(setting)?;
    }
    Ok(settings)
}

/// Returns the format that the option with this name gives, if it is given.
fn format_of(matches: &ArgMatches<'_>, option: &str) -> Option<Format> {
    match matches.get_str(option)? {
        "pcap" => Some(Format::Pcap),
        "pcapng" => Some(Format::Pcapng),
        _ => Some(Format::Capture),
    }
}

/// Returns the file that a command reads. Each command has one, with one of these names.
fn file_of<'a>(matches: &ArgMatches<'a>) -> Option<&'a str> {
    ["FILE", "IN", "SCENARIO", "RUN"]
        .iter()
        .find_map(|name| matches.get_str(name))
}
