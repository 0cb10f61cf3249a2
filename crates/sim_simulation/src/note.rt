//! What happens in a run besides its events.

ghost use Rattle.std.specs.Prelude.{◌≡◌};
ghost use Rattle.sim_simulation.specs.Notes.{is_told};

use cmd_quoting::OneLine;
use serde::Serialize;
use sim_scenario::events::AddressedEvent;
use std::fmt;

/// What happens in a radio model and is not an event of the world. It has no number and no entry.
#[derive(Clone, Copy, Debug, PartialEq, Eq)]
pub enum Note<'a> {
    /// A station was made, which has this id in a file of moves. It is absent, and none of its
    /// events was done.
    Made {
        station: usize,
        id: &'a str,
    },
    /// A station was absent, and is present from now on.
    Came {
        station: usize,
    },
    /// A station was present, and is absent from now on.
    Left {
        station: usize,
    },
    /// A frame that was just sent will be delivered to a station. It was not lost.
    Heard {
        station: usize,
        frame: usize,
    },
    /// A frame that was just sent was in range of a station, and was lost at random on the way to
    /// it.
    Lost {
        station: usize,
        frame: usize,
    },
    /// A frame that a station held is sent. The stations that are now in range receive it.
    Released {
        station: usize,
        frame: usize,
    },
    /// A frame that a station held is not sent, since the station restarted.
    Dropped {
        station: usize,
        frame: usize,
    },
    /// An event of this id wasn't run. The station of the id is absent, or no row has made one yet.
    Absent {
        id: &'a str,
        event: &'a AddressedEvent,
        /// Whether a row had made that station: it was present, and has left.
        has_left: bool,
    },
}

/// A note and its time in milliseconds. It prints as its line, for example `- 500 1 came`, `- 1001
/// 1 lost 1` or `- 3000 - absent v1`. A note without a line prints as nothing.
#[derive(Clone, Copy, Debug, PartialEq, Eq)]
pub(crate) struct NoteText<'a> {
    pub(crate) moment: u64,
    pub(crate) note: &'a Note<'a>,
}

impl fmt::Display for NoteText<'_> {
    fn fmt<W: fmt::Write>(&self, f: &mut fmt::Formatter<W>) -> fmt::Result {
        let moment = self.moment;
        match self.note {
            Note::Came { station } => write!(f, "- {moment} {station} came"),
            Note::Left { station } => write!(f, "- {moment} {station} left"),
            Note::Lost { station, frame } => write!(f, "- {moment} {station} lost {frame}"),
            Note::Released { station, frame } => write!(f, "- {moment} {station} released {frame}"),
            Note::Dropped { station, frame } => write!(f, "- {moment} {station} dropped {frame}"),
            Note::Absent { id, .. } => write!(f, "- {moment} - absent {}", OneLine(id)),
            Note::Made { .. } | Note::Heard { .. } => Ok(()),
        }
    }
}

/// The JSON object of a note, with its keys in order.
#[derive(Clone, Copy, Serialize)]
pub(crate) struct NoteLine<'a> {
    note: &'static str,
    moment: u64,
    #[serde(skip_serializing_if = "Option::is_none")]
    station: Option<usize>,
    #[serde(skip_serializing_if = "Option::is_none")]
    frame: Option<usize>,
    #[serde(skip_serializing_if = "Option::is_none")]
    id: Option<&'a str>,
}

impl<'a> NoteLine<'a> {
    /// Returns the line of a note, if it has one.
    pub(crate) fn of(moment: u64, note: &Note<'a>) -> Option<NoteLine<'a>> {
        let (word, station, frame, id) = match *note {
            Note::Came { station } => ("came", Some(station), None, None),
            Note::Left { station } => ("left", Some(station), None, None),
            Note::Lost { station, frame } => ("lost", Some(station), Some(frame), None),
            Note::Released { station, frame } => ("released", Some(station), Some(frame), None),
            Note::Dropped { station, frame } => ("dropped", Some(station), Some(frame), None),
            Note::Absent { id, .. } => ("absent", None, None, Some(id)),
            Note::Made { .. } | Note::Heard { .. } => return None,
        };
        Some(NoteLine {
            note: word,
            moment,
            station,
            frame,
            id,
        })
    }
}

impl Note<'_> {
    /// Whether it has a line among those of events.
    pub fn is_told(&self) -> bool
        ensures { result ≡ is_told self.now }
    {
        !matches!(self, Note::Made { .. } | Note::Heard { .. })
    }
}
