//! What replaces a line of the page.

use std::str;

/// The line that the run replaces.
const RUN: &[u8] = b"<script type=\"application/jsonl\" id=\"inside\"></script>";

/// What replaces a line of the page.
#[derive(Clone, Copy)]
pub(crate) enum PagePart<'a> {
    /// The line itself.
    Text,
    /// The style in the file with this name.
    Style(&'a str),
    /// The script in the file with this name.
    Script(&'a str),
    /// The run.
    Run,
}

/// Returns what replaces this line of the page.
pub(crate) fn part_of(line: &[u8]) -> PagePart<'_> {
    if line == RUN {
        return PagePart::Run;
    }
    let style = name_between(line, b"<link rel=\"stylesheet\" href=\"", b"\">");
    let script = name_between(line, b"<script src=\"", b"\"></script>");
    match (style, script) {
        (Some(name), _) => PagePart::Style(name),
        (None, Some(name)) => PagePart::Script(name),
        (None, None) => PagePart::Text,
    }
}

/// Returns what is between this beginning and this end of a line, if the line has both.
fn name_between<'a>(line: &'a [u8], start: &[u8], end: &[u8]) -> Option<&'a str> {
    let name = line.strip_prefix(start)?.strip_suffix(end)?;
    str::from_utf8(name).ok()
}
