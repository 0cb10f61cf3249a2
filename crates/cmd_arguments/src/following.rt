//! Reads how packets are followed over captures, by the options of `follow`.

use crate::bad_argument::BadArgument;
use crate::choosing::{selection_of, time_of};
use crate::contention::number_of;
use cap_pcap::Format;
use clap::ArgMatches;
use cmd_follow::{FollowBy, FollowForm, FollowOptions};
use std::alloc::{AllocError, Global};

/// What the window has to be.
const WINDOW: &str = "a whole number of milliseconds in 1..=60000";

/// The default time for which a packet is followed, in milliseconds.
const USUAL: u16 = 10_000;

/// Reads how packets are followed, over the given captures of this format. Returns the fault of the
/// first option with an invalid value. `--window` is the last. `OutOfMemory` if an allocation
/// failed.
pub fn following_of<'a>(
    alloc: Global,
    matches: &ArgMatches<'a>,
    format: Option<Format>,
) -> Result<FollowOptions<'a>, BadArgument<'a>> {
    let files = files_of(alloc, matches)?;
    let selection = selection_of(matches, format)?;
    let window = number_of(matches, "window", 1, 60_000, WINDOW)?.unwrap_or(USUAL);
    Ok(FollowOptions {
        files,
        selection,
        by: by_of(matches),
        window: u64::from(window),
        summary: matches.get_flag("summary"),
        form: form_of(matches),
        time: time_of(matches),
    })
}

/// Returns the captures, in their order.
fn files_of<'a>(alloc: Global, matches: &ArgMatches<'a>) -> Result<Vec<&'a str>, AllocError> {
    let mut files = Vec::new(alloc);
    for file in matches.get_strs("CAPTURE").unwrap_or(&[]) {
        files.push(*file)?;
    }
    Ok(files)
}

/// Reads how frames are found to be copies of one packet, by `--by`.
fn by_of(matches: &ArgMatches<'_>) -> FollowBy {
    match matches.get_str("by") {
        Some("payload") => FollowBy::Payload,
        _ => FollowBy::Packet,
    }
}

/// Reads how rows and tables are printed, by `--json` and `--csv`.
fn form_of(matches: &ArgMatches<'_>) -> FollowForm {
    if matches.get_flag("json") {
        FollowForm::Json
    } else if matches.get_flag("csv") {
        FollowForm::Csv
    } else {
        FollowForm::Words
    }
}
