//! The commands of the program and their arguments, as help shows them.

use clap::{Arg, ArgAction, Command};
use std::alloc::{AllocError, Global};

/// An argument of a command: its name and its help.
#[derive(Clone, Copy)]
enum Argument {
    /// Required, by position.
    Required(&'static str, &'static str),
    /// Required, by position. It may begin with a minus sign, for a number below 0.
    Signed(&'static str, &'static str),
    /// Required, by position, unless the option with this name is given. Both together are refused.
    Unless(&'static str, &'static str, &'static str),
    /// Required, by position, from one to this number of times.
    Many(&'static str, usize, &'static str),
    /// An option without a value.
    Flag(&'static str, &'static str),
    /// An option without a value. Together with the option with this name it is refused.
    FlagUnless(&'static str, &'static str, &'static str),
    /// An option without a value, with a letter.
    LetterFlag(char, &'static str, &'static str),
    /// An option with a value, and the name of the value in the help.
    Value(&'static str, &'static str, &'static str),
    /// An option with a value, with a letter.
    LetterValue(char, &'static str, &'static str, &'static str),
    /// An option with a value that may be given several times.
    Values(&'static str, &'static str, &'static str),
    /// An option with one of these values.
    Choice(&'static str, &'static str, &'static [&'static str], &'static str),
}

/// A command: its name, what it does, its arguments, what further options of it select, and the end
/// of its help.
#[derive(Clone, Copy)]
struct Form {
    name: &'static str,
    about: &'static str,
    arguments: &'static [Argument],
    selecting: Selecting,
    example: &'static str,
}

const JSON: Argument = Argument::Flag("json", "Print each line as a JSON object");

const EXPLAIN: Argument = Argument::Flag("explain", "Explain codes in words");

const NO_EXPLAIN: Argument = Argument::Flag(
    "no-explain",
    "Don't explain codes, even on a terminal",
);

const QUIET: Argument = Argument::LetterFlag(
    'q',
    "quiet",
    "Print errors only: no progress, no notices",
);

const COLOR: Argument = Argument::Choice(
    "color",
    "WHEN",
    &["auto", "always", "never"],
    "When to colour kinds and refusals; auto means on a terminal",
);

const STRICT: Argument = Argument::Flag(
    "strict",
    "End with status 1 if an event is refused or not run, or a key is unknown",
);

const FRAMES: Argument = Argument::Value(
    "frames",
    "OUT",
    "Write the frames to this file as well: .pcap, .pcapng or .cap",
);

const TO: Argument = Argument::Choice(
    "to",
    "FORMAT",
    &["capture", "pcap", "pcapng"],
    "Format to write [default: by the name of the file]",
);

const FORMAT: Argument = Argument::Choice(
    "format",
    "FORMAT",
    &["capture", "pcap", "pcapng"],
    "Format to read [default: by the first bytes of the file]",
);

const KIND: Argument = Argument::Value(
    "kind",
    "LIST",
    "Select frames of these kinds, separated by commas: beacon,shb,gbc,gac",
);

const SOURCE: Argument = Argument::Value(
    "source",
    "HEX16",
    "Select frames with this source address in the packet",
);

const FROM_MAC: Argument = Argument::Value(
    "from-mac",
    "HEX12",
    "Select frames from this link address, with or without colons or hyphens",
);

const PORT: Argument = Argument::Value("port", "N", "Select frames to this destination port");

const TO_MAC: Argument = Argument::Value("to-mac", "HEX12", "Select frames to this link address");

const HOPS: Argument = Argument::Value(
    "hops",
    "RANGE",
    "Select frames with this remaining hop limit, or one in a range such as 1-3",
);

const CLASS: Argument = Argument::Value("class", "HEX2", "Select frames with this traffic class");

const NUMBER: Argument = Argument::Value(
    "number",
    "RANGE",
    "Select frames with this sequence number, or one in a range such as 7-9",
);

const AREA: Argument = Argument::Value(
    "area",
    "LAT:LON",
    "Select frames whose destination area contains this position",
);

const ANY: Argument = Argument::Value(
    "any",
    "LIST",
    "Select records that match one of these filters, such as kind=gbc,hops=1-3,refused",
);

const NOT: Argument = Argument::Value(
    "not",
    "LIST",
    "Leave out records that match one of these filters",
);

const SINCE: Argument = Argument::Value(
    "since",
    "MOMENT",
    "Select records from this time on: milliseconds, or a UTC time",
);

const UNTIL: Argument = Argument::Value(
    "until",
    "MOMENT",
    "Select records up to this time: milliseconds, or a UTC time",
);

const REFUSED: Argument = Argument::Flag("refused", "Select refused records");

const NOT_GEONETWORKING: Argument = Argument::Choice(
    "not-geonetworking",
    "WHAT",
    &["refuse", "skip"],
    "Refuse or skip records of other protocols and unsupported link layers [default: refuse]",
);

const PARTIAL: Argument = Argument::Flag(
    "partial",
    "Read frames that a snap length cut off, as far as they go",
);

const SIGNED: Argument = Argument::Flag(
    "signed",
    "Read secured frames by their plain part, without verifying them",
);

const ALL_KINDS: Argument = Argument::Flag(
    "all-kinds",
    "Read packets outside the profile, also of the kinds guc,tsb,ls-request,ls-reply",
);

const COUNT: Argument = Argument::Value("count", "N", "Stop after this many selected records");

const TIME: Argument = Argument::Choice(
    "time",
    "TIME",
    &["raw", "exact", "utc", "relative", "delta"],
    "How to print times: milliseconds, the same with decimals, UTC, seconds since the first or the previous record [default: raw]",
);

const FIELDS: Argument = Argument::Value(
    "fields",
    "NAMES",
    "Print the values of these keys, separated by commas: as CSV, or as objects with --json",
);

const OWN: Argument = Argument::Flag(
    "own",
    "Count the frames that each source sent itself apart from those that others forwarded",
);

const FRAMES_ONLY: Argument = Argument::Flag(
    "frames-only",
    "Write Ethernet frames instead of records with their link layer header",
);

const ADDRESS: Argument = Argument::Required(
    "ADDRESS",
    "GN address of the station, 16 hexadecimal digits",
);

const LAT: Argument = Argument::Signed(
    "LAT",
    "Latitude in tenths of a microdegree: 481000000 is 48.1 degrees",
);

const LON: Argument = Argument::Signed(
    "LON",
    "Longitude in tenths of a microdegree: 115000000 is 11.5 degrees",
);

const CAPACITY: Argument = Argument::Value(
    "capacity",
    "N",
    "Size of the location table, 1 to 4096 [default: 64]",
);

const REMEMBER: Argument = Argument::Value(
    "remember",
    "N",
    "Length of the duplicate packet list per source, 1 to 64 [default: 8]",
);

const CAPTURE: Argument = Argument::Required("FILE", "Capture file, or - for standard input");

const SCENARIO: Argument = Argument::Required("SCENARIO", "Scenario file, or - for standard input");

const OUTPUT: Argument = Argument::LetterValue(
    'o',
    "output",
    "FILE",
    "File to write, the same as OUT",
);

/// The options that select frames by the kind and source of their packet, and by link addresses.
static ENDS: [Argument; 4] = [KIND, SOURCE, FROM_MAC, TO_MAC];

/// The options that select frames by their content, and records by their time.
static CONTENTS: [Argument; 8] = [HOPS, CLASS, NUMBER, AREA, ANY, NOT, SINCE, UNTIL];

// A function for each list: a table that repeats them takes the check long.

fn ends() -> &'static [Argument] {
    &ENDS
}

fn contents() -> &'static [Argument] {
    &CONTENTS
}

/// What the selecting options of a command select.
#[derive(Clone, Copy)]
enum Selecting {
    /// The command has no such options.
    Nothing,
    /// Records.
    Records,
    /// Frames, for a command that follows them over several captures.
    Frames,
    /// Records, for a command whose `--port` opens a port.
    RecordsToAnyPort,
}

impl Selecting {
    /// Returns the options in groups, in the order of the help.
    fn options(self) -> [&'static [Argument]; 4] {
        match self {
            Selecting::Nothing => [&[], &[], &[], &[]],
            Selecting::Records => [
                ends(),
                &[PORT],
                contents(),
                &[REFUSED, NOT_GEONETWORKING, COUNT],
            ],
            Selecting::Frames => [ends(), &[PORT], contents(), &[NOT_GEONETWORKING]],
            Selecting::RecordsToAnyPort => [ends(), &[], contents(), &[REFUSED, COUNT]],
        }
    }
}

/// Adds all commands to a program, each with its arguments, in the order of the help.
pub fn add_commands<'a>(alloc: Global, program: Command<'a>) -> Result<Command<'a>, AllocError> {
    let program = add_forms(alloc, program, readers())?;
    let program = add_forms(alloc, program, makers())?;
    let program = add_forms(alloc, program, runners())?;
    add_forms(alloc, program, stations())
}

/// Returns the command with this name by itself, whose errors show its own usage, if there is one.
pub fn command_named<'a>(
    alloc: Global,
    program: &str,
    name: &str,
) -> Result<Option<Command<'a>>, AllocError> {
    let Some(form) = form_named(name) else {
        return Ok(None);
    };
    let called = format!(in alloc; "{program} {name}")?;
    Ok(Some(form.command(alloc)?.bin_name(called.as_str())?))
}

/// Returns the form of the command with this name, if there is one.
fn form_named(name: &str) -> Option<&'static Form> {
    for forms in [readers(), makers(), runners(), stations()] {
        for form in forms {
            if form.name == name {
                return Some(form);
            }
        }
    }
    None
}

fn add_forms<'a>(
    alloc: Global,
    program: Command<'a>,
    forms: &[Form],
) -> Result<Command<'a>, AllocError> {
    let mut program = program;
    for form in forms {
        program = program.subcommand(form.command(alloc)?)?;
    }
    Ok(program)
}

// One table of all is more than the check of one function takes.

fn readers() -> &'static [Form] {
    &READERS
}

fn makers() -> &'static [Form] {
    &MAKERS
}

fn runners() -> &'static [Form] {
    &RUNNERS
}

fn stations() -> &'static [Form] {
    &STATIONS
}

/// The commands that print what is in a capture.
static READERS: [Form; 4] = [
    Form {
        name: "show",
        about: "Print a line for each record of a capture",
        arguments: &[
            CAPTURE, FORMAT, JSON, EXPLAIN, NO_EXPLAIN, COLOR, TIME, FIELDS, PARTIAL, SIGNED,
            ALL_KINDS,
        ],
        selecting: Selecting::Records,
        example: "\
Keys of --fields: moment, from, to, kind, address, tst, lat, lon, pai, speed, heading, lt, tc,
mobile, hops, max_hops, number, shape, alat, alon, a, b, angle, port, info, payload, refused,
record, interface, length, vlan, rssi, rate, cut, media, octets, retry;
with --signed psid, generated, secured;
with --all-kinds outside, destination, dtst, dlat, dlon, sought, next, source_port

Example:
  geostation show first.cap",
    },
    Form {
        name: "check",
        about: "Print a line for each refused record of a capture, and a count",
        arguments: &[
            CAPTURE, FORMAT, JSON, EXPLAIN, NO_EXPLAIN, SIGNED, ALL_KINDS,
        ],
        selecting: Selecting::Records,
        example: "\
Example:
  geostation check first.cap",
    },
    Form {
        name: "stats",
        about: "Count the records of a capture by kind, source, port and second",
        arguments: &[
            CAPTURE,
            FORMAT,
            JSON,
            EXPLAIN,
            NO_EXPLAIN,
            Argument::Value(
                "top",
                "N",
                "Print this many sources, those with the most frames",
            ),
            OWN,
            SIGNED,
            ALL_KINDS,
        ],
        selecting: Selecting::Records,
        example: "\
Example:
  geostation stats first.cap",
    },
    Form {
        name: "follow",
        about: "Follow each packet over several captures",
        arguments: &[
            Argument::Many(
                "CAPTURE",
                16,
                "Capture files, 1 to 16, one of which may be - for standard input",
            ),
            FORMAT,
            Argument::Choice(
                "by",
                "WHAT",
                &["packet", "payload"],
                "What copies of a packet have in common: source, kind, number and time stamp, or source and payload [default: packet]",
            ),
            Argument::Value(
                "window",
                "MS",
                "Time in which copies of a packet are looked for, 1 to 60000 ms [default: 10000]",
            ),
            Argument::Flag(
                "summary",
                "Print what the captures have in common instead of the packets",
            ),
            JSON,
            Argument::FlagUnless("csv", "json", "Print rows of CSV"),
            Argument::Choice(
                "time",
                "TIME",
                &["raw", "utc"],
                "How to print times: milliseconds or UTC [default: raw]",
            ),
            EXPLAIN,
            NO_EXPLAIN,
            SIGNED,
            ALL_KINDS,
        ],
        selecting: Selecting::Frames,
        example: "\
Example:
  geostation follow near.pcapng far.pcapng --summary",
    },
];

/// The commands that write a capture.
static MAKERS: [Form; 2] = [
    Form {
        name: "convert",
        about: "Write the records of a capture in another format",
        arguments: &[
            Argument::Required("IN", "Capture file, or - for standard input"),
            Argument::Unless(
                "OUT",
                "output",
                "File to write: .pcap, .pcapng or .cap, or - for standard output",
            ),
            OUTPUT,
            FORMAT,
            TO,
            FRAMES_ONLY,
            SIGNED,
            ALL_KINDS,
            EXPLAIN,
            NO_EXPLAIN,
            QUIET,
        ],
        selecting: Selecting::Records,
        example: "\
Example:
  geostation convert first.cap first.pcapng",
    },
    Form {
        name: "import",
        about: "Make a capture from lines with a time and hexadecimal digits",
        arguments: &[
            Argument::Required("FILE", "Text file, or - for standard input"),
            Argument::Unless(
                "OUT",
                "output",
                "Capture to write, or - for standard output",
            ),
            OUTPUT,
            Argument::Choice(
                "to",
                "FORMAT",
                &["capture", "pcap", "pcapng"],
                "Format of OUT [default: capture]",
            ),
            EXPLAIN,
            NO_EXPLAIN,
            QUIET,
        ],
        selecting: Selecting::Nothing,
        example: "\
Example, for a file of lines such as '1000 ffffffffffff0200..':
  geostation import frames.txt frames.cap",
    },
];

/// The commands that run a scenario.
static RUNNERS: [Form; 3] = [
    Form {
        name: "sim",
        about: "Run a scenario and print a line for each event",
        arguments: &[
            SCENARIO,
            Argument::Flag(
                "summary",
                "Print the outcome of each GBC and GAC instead of the events",
            ),
            Argument::Values(
                "set",
                "KEY=VALUE",
                "Set a key of [air]: range, delay, loss, seed, beacons or until",
            ),
            Argument::Value(
                "moves",
                "FILE",
                "Move stations by the rows of this CSV file, or - for standard input",
            ),
            Argument::Flag(
                "notes",
                "Also print which stations arrive or depart, and which frames are lost",
            ),
            FRAMES,
            TO,
            Argument::Value(
                "sends",
                "FILE",
                "Write a row for each GBC and GAC to this CSV file",
            ),
            Argument::Value(
                "stations",
                "FILE",
                "Write a row for each station to this CSV file",
            ),
            Argument::Value(
                "load",
                "FILE",
                "Write a row for each second with frames to this CSV file",
            ),
            JSON,
            EXPLAIN,
            NO_EXPLAIN,
            COLOR,
            STRICT,
            QUIET,
        ],
        selecting: Selecting::Nothing,
        example: "\
Example:
  geostation sim warning.toml",
    },
    Form {
        name: "view",
        about: "Write a page that shows a run in a browser, as one file",
        arguments: &[
            Argument::Required(
                "RUN",
                "Lines of sim --json, or a scenario, or - for standard input",
            ),
            Argument::LetterValue(
                'o',
                "output",
                "FILE",
                "Page to write [default: standard output]",
            ),
            Argument::Value(
                "viewer",
                "DIR",
                "Folder of the viewer [default: the one beside the program]",
            ),
            Argument::Value(
                "moves",
                "FILE",
                "Run the scenario with the moves in this CSV file, or - for standard input",
            ),
            Argument::Value(
                "net",
                "FILE",
                "Draw the streets of this file beneath the run: net.xml of SUMO, or GeoJSON",
            ),
            EXPLAIN,
            NO_EXPLAIN,
            QUIET,
        ],
        selecting: Selecting::Nothing,
        example: "\
Example:
  geostation view warning.toml -o warning.html",
    },
    Form {
        name: "mesh",
        about: "Run a scenario over UDP sockets on the loopback interface",
        arguments: &[SCENARIO, FRAMES, TO, JSON, EXPLAIN, NO_EXPLAIN, STRICT],
        selecting: Selecting::Nothing,
        example: "\
Example:
  geostation mesh warning.toml",
    },
];

/// The commands that run or judge one station.
static STATIONS: [Form; 3] = [
    Form {
        name: "replay",
        about: "Print what a station would have done with the frames of a capture",
        arguments: &[
            CAPTURE,
            ADDRESS,
            LAT,
            LON,
            CAPACITY,
            REMEMBER,
            Argument::Values(
                "port",
                "N",
                "Open this port at the start; it doesn't select frames",
            ),
            Argument::Flag(
                "limits",
                "Apply the default limits of the daemon: hops, rates, one delivery per packet",
            ),
            Argument::Value(
                "moves",
                "FILE",
                "Move the station by the rows of this file, which have one id",
            ),
            Argument::Value(
                "against",
                "HEX12",
                "Compare with what the station under test sent, the frames from this link address",
            ),
            Argument::Value(
                "within",
                "MS",
                "Time in which that station forwards a frame, 0 to 65535 ms [default: 50]",
            ),
            Argument::Flag(
                "strict",
                "End with status 1 if a frame of that station differs",
            ),
            FRAMES,
            TO,
            FORMAT,
            SIGNED,
            JSON,
            EXPLAIN,
            NO_EXPLAIN,
        ],
        selecting: Selecting::RecordsToAnyPort,
        example: "\
Example:
  geostation replay first.cap 1400020000000002 0 0 --port 2002",
    },
    Form {
        name: "verdict",
        about: "Find rules of the standard that a station breaks",
        arguments: &[
            Argument::Required(
                "IUT",
                "Station file: what is claimed of the station and of the capture",
            ),
            Argument::Required("CAPTURE", "Capture file, or - for standard input"),
            Argument::Values(
                "assume",
                "NAME",
                "Assume this claim as well, as if the station file had it as true",
            ),
            Argument::Flag("all", "Print all verdicts, not only fails"),
            Argument::Flag("inconclusive", "Print fails and inconclusive verdicts"),
            Argument::Value(
                "duty",
                "LIST",
                "Judge these duties only, separated by commas: D1,D13",
            ),
            Argument::Flag("strict", "End with status 1 unless all verdicts are passes"),
            JSON,
            TIME,
            Argument::Value(
                "since",
                "MOMENT",
                "Print verdicts from this time on: milliseconds, or a UTC time",
            ),
            Argument::Value(
                "until",
                "MOMENT",
                "Print verdicts up to this time: milliseconds, or a UTC time",
            ),
            FORMAT,
        ],
        selecting: Selecting::Nothing,
        example: "\
Claims of --assume: sent, received, delivered, fresh, steady, gapless, unlimited, unbuffered,
profile

Example:
  geostation verdict iut.toml plugtest.pcapng --assume received",
    },
    Form {
        name: "station",
        about: "Run one station on JSON lines",
        arguments: &[
            ADDRESS,
            LAT,
            LON,
            CAPACITY,
            REMEMBER,
            Argument::Choice(
                "area-forwarding",
                "METHOD",
                &["simple", "contention"],
                "How to forward a packet inside its area [default: simple]",
            ),
            Argument::Value(
                "contention-max",
                "MS",
                "Greatest wait, 1 to 1000 ms [default: 100]",
            ),
            Argument::Value(
                "contention-min",
                "MS",
                "Least wait, 0 ms to the greatest [default: 1]",
            ),
            Argument::Value(
                "contention-range",
                "M",
                "Distance of the sender for the least wait, 1 to 65535 m [default: 1000]",
            ),
            Argument::Value(
                "contention-copies",
                "N",
                "Copies that cancel a frame that waits, 1 to 3 [default: 2]",
            ),
        ],
        selecting: Selecting::Nothing,
        example: "\
Example:
  echo '{\"at\":3000,\"do\":\"tick\",\"jitter\":0}' | geostation station 1400020000000001 0 0",
    },
];

impl Argument {
    /// Returns the argument for clap.
    fn to_clap<'a>(self, alloc: Global) -> Result<Arg<'a>, AllocError> {
        Ok(match self {
            Argument::Required(name, help) => Arg::new(alloc, name).required(true).help(help),
            Argument::Signed(name, help) => Arg::new(alloc, name)
                .required(true)
                .allow_negative_numbers(true)
                .help(help),
            Argument::Unless(name, other, help) => Arg::new(alloc, name)
                .help(help)
                .required_unless_present(other)?
                .conflicts_with(other)?,
            Argument::Many(name, most, help) => Arg::new(alloc, name)
                .required(true)
                .num_args(1..=most)
                .help(help),
            Argument::Flag(name, help) => flag(alloc, name, help),
            Argument::FlagUnless(name, other, help) => {
                flag(alloc, name, help).conflicts_with(other)?
            }
            Argument::LetterFlag(letter, name, help) => flag(alloc, name, help).short(letter),
            Argument::Value(name, value, help) => option(alloc, name, value, help),
            Argument::LetterValue(letter, name, value, help) => {
                option(alloc, name, value, help).short(letter)
            }
            Argument::Values(name, value, help) => {
                option(alloc, name, value, help).action(ArgAction::Append)
            }
            Argument::Choice(name, value, values, help) => {
                option(alloc, name, value, help).value_parser(values)
            }
        })
    }
}

/// Returns an option without a value.
fn flag<'a>(alloc: Global, name: &'static str, help: &'static str) -> Arg<'a> {
    Arg::new(alloc, name)
        .long(name)
        .action(ArgAction::SetTrue)
        .help(help)
}

/// Returns an option with a value.
fn option<'a>(
    alloc: Global,
    name: &'static str,
    value: &'static str,
    help: &'static str,
) -> Arg<'a> {
    Arg::new(alloc, name)
        .long(name)
        .value_name(value)
        .allow_negative_numbers(true)
        .help(help)
}

impl Form {
    /// Returns the command for clap.
    fn command<'a>(&self, alloc: Global) -> Result<Command<'a>, AllocError> {
        let command = Command::new(alloc, self.name)
            .about(self.about)
            .after_help(self.example);
        let mut command = with_arguments(alloc, command, self.arguments)?;
        for group in self.selecting.options() {
            command = with_arguments(alloc, command, group)?;
        }
        Ok(command)
    }
}

/// Adds these arguments to a command.
fn with_arguments<'a>(
    alloc: Global,
    command: Command<'a>,
    arguments: &[Argument],
) -> Result<Command<'a>, AllocError> {
    let mut command = command;
    for argument in arguments {
        command = command.arg(argument.to_clap(alloc)?)?;
    }
    Ok(command)
}
