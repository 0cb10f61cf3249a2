//! The files that a command writes: their formats by their names, and why one isn't written.

ghost use Rattle.std.specs.Prelude.{◌≡◌, IfSome, IsErr, MatchResult, None, Ok, Some};
ghost use Rattle.std.specs.Str.{str_eq_ignore_ascii_case};
ghost use Rattle.cap_pcap.specs.declared.format.Format.{Format as FileFormat};
ghost use Rattle.cmd_reporting.specs.FileNames.{ends_in, format_of_file, format_of_name};
ghost use Rattle.cmd_reporting.specs.FileNames.{format_of_output};
ghost use Rattle.cmd_reporting.specs.FileNames.{is_standard as names_standard};

use crate::fault::CommandFault;
use crate::options::OutputFormat;
use crate::status::ExitStatus;
use cap_pcap::Format;
use cmd_quoting::OneLine;
use std::io::Write;
use thiserror::Error;

/// The name of standard input among the files that are read, and of standard output among those
/// that are written. A file with this name is `./-`.
const STANDARD: &str = "-";

/// A file that is to be written.
#[derive(Clone, Copy, Debug, PartialEq, Eq)]
pub struct Target<'a> {
    /// Its name. `-` is standard output, if the command allows it.
    pub name: &'a str,
    /// Its format, if one is given. Otherwise its name says it.
    pub to: Option<Format>,
}

impl<'a> Target<'a> {
    /// Returns the file with this name, in the format that the name says.
    pub fn named(name: &'a str) -> Target<'a>
        ensures { result ≡ record { name = name.entry; to = None } }
    {
        Target { name, to: None }
    }

    /// Returns the format in which it is written: the given one, and without one by the end of its
    /// name, in upper or lower case. `.pcapng` is pcapng, `.pcap` is classic pcap, and `.cap` or
    /// the name `-` is a capture.
    ///
    /// `NoFormat` if nothing says a format.
    pub fn format(self) -> Result<Format, OutputFault<'a>>
        ensures { MatchResult result
            (λ format. format_of_output self.entry.to self.entry.name.now ≡ Some format)
            (λ _. format_of_output self.entry.to self.entry.name.now ≡ None) }
    {
        let format = match self.to {
            Some(format) => Some(format),
            None => format_named(self.name),
        };
        format.ok_or(OutputFault::NoFormat(self.name))
    }

    /// Returns the format as `format` does, for a file whose name may not be `-`.
    pub fn file_format(self) -> Result<Format, OutputFault<'a>>
        ensures { MatchResult result
            (λ format. format_of_file self.entry.to self.entry.name.now ≡ Some format)
            (λ _. format_of_file self.entry.to self.entry.name.now ≡ None) }
    {
        if is_standard(self.name) {
            Err(OutputFault::NoFormat(self.name))
        } else {
            self.format()
        }
    }
}

/// A file of frames that is to be made.
#[derive(Clone, Copy, Debug, PartialEq, Eq)]
pub struct FrameTarget<'a> {
    /// Its name.
    pub name: &'a str,
    /// Its format.
    pub format: Format,
}

/// Returns the file of frames that the arguments ask for, if they do. `NoFormat` if nothing says its
/// format or its name is `-`.
pub fn frame_target<'a>(
    frames: Option<Target<'a>>,
) -> Result<Option<FrameTarget<'a>>, OutputFault<'a>>
    ensures alone { frames.entry ≡ None → result ≡ Ok None }
    ensures format { IfSome frames.entry (λ target. format_of_file target.to target.name.now ≡ None
        → IsErr result) }
    ensures made { IfSome frames.entry (λ target. (format : FileFormat)
        → format_of_file target.to target.name.now ≡ Some format
        → result ≡ Ok (Some (record { name = target.name; format = format }))) }
{
    let Some(target) = frames else {
        return Ok(None);
    };
    let format = target.file_format()?;
    Ok(Some(FrameTarget {
        name: target.name,
        format,
    }))
}

/// Returns the format that a name says, if it says one.
fn format_named(name: &str) -> Option<Format>
    ensures { result ≡ format_of_name name.now }
{
    if has_ending(name, ".pcapng") {
        Some(Format::Pcapng)
    } else if has_ending(name, ".pcap") {
        Some(Format::Pcap)
    } else if has_ending(name, ".cap") || is_standard(name) {
        Some(Format::Capture)
    } else {
        None
    }
}

/// Whether a name ends in these letters, each in either case.
fn has_ending(name: &str, ending: &str) -> bool
    ensures { result ≡ ends_in name.now ending.now }
{
    let (name, ending) = (name.as_bytes(), ending.as_bytes());
    let start = name.len().saturating_sub(ending.len());
    are_alike(&name[start..], ending)
}

/// Whether these are the same letters, in upper or lower case.
fn are_alike(some: &[u8], others: &[u8]) -> bool
    ensures { result ≡ str_eq_ignore_ascii_case some.now others.now }
{
    some.eq_ignore_ascii_case(others)
}

/// Whether a name is that of standard input or output.
pub fn is_standard(name: &str) -> bool
    ensures { result ≡ names_standard name.now }
{
    name == STANDARD
}

/// Why a file is not written. It prints as its line on standard error.
#[derive(Clone, Copy, Debug, PartialEq, Eq, Error)]
pub enum OutputFault<'a> {
    /// Neither its name nor an argument says a format.
    #[error("geostation: {}: no format", OneLine(*.0))]
    NoFormat(&'a str),
    /// It is a file that is read, or another one that is written: their names, its own first.
    #[error("geostation: {} is {}", OneLine(*.0), OneLine(*.1))]
    SameFile(&'a str, &'a str),
}

impl CommandFault for OutputFault<'_> {
    type Ending = ExitStatus;

    ghost use Rattle.cmd_reporting.specs.declared.status.ExitStatus.TheVariants.{BadArguments};

    ghost status_of = { λ _. BadArguments };

    fn status(&self) -> ExitStatus {
        ExitStatus::BadArguments
    }

    fn report<E: Write>(&self, _format: OutputFormat, err: &mut E) {
        let _ = writeln!(err, "{self}");
    }
}
