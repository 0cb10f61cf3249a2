//! How far a packet for an area came at a station that it is for.

ghost use Rattle.std.specs.Prelude.{◌≡◌};
ghost use Rattle.sim_results.specs.Audiences.{at_end, is_delivered};

use its_station::Refused;
use its_world::{Entry, EntryFault};
use serde::{Described, Serialize, Serializer};
use std::fmt;

/// How far a packet came at a station, from nowhere to its port.
#[derive(Clone, Copy, Debug, PartialEq, Eq)]
pub enum Reach {
    /// No frame of it was in range.
    Unheard,
    /// The run ended before a frame of it arrived, while deliveries were still to come.
    Cut,
    /// Each frame that the station could have received was lost.
    Lost,
    /// A frame of it was received and ignored.
    Ignored,
    /// A frame of it was received and rejected.
    Refused,
    /// A frame of it was received, and the location table had no free space for its source.
    Full,
    /// It was accepted by the station, which was outside the area.
    Outside,
    /// It was accepted inside the area, and its port was not open.
    Closed,
    /// It was delivered to its port.
    Delivered,
}

impl Reach {
    /// Whether this is the outcome of a frame that was delivered to its port.
    pub(crate) fn is_delivery(entry: &Entry) -> bool {
        matches!(
            entry,
            Entry::Accepted {
                handed: Some(_),
                ..
            }
        )
    }

    /// Returns how far it came, by the outcome of one of its frames.
    pub(crate) fn of(entry: &Entry, is_inside: bool) -> Reach {
        match entry {
            Entry::Accepted {
                handed: Some(_),
                ..
            } => Reach::Delivered,
            Entry::Accepted { .. } if is_inside => Reach::Closed,
            Entry::Accepted { .. } => Reach::Outside,
            Entry::Refused(EntryFault::Station(Refused::TableFull)) => Reach::Full,
            Entry::Refused(_) => Reach::Refused,
            Entry::Ignored(_) => Reach::Ignored,
            _ => Reach::Unheard,
        }
    }

    /// Whether it was delivered to its port.
    pub fn is_delivered(self) -> bool
        ensures { result ≡ is_delivered self }
    {
        matches!(self, Reach::Delivered)
    }

    /// Returns how far it came by the end of the run. `is_cut` says that the run ended before all
    /// its deliveries.
    pub fn at_end(self, is_cut: bool) -> Reach
        ensures { result ≡ at_end is_cut self }
    {
        match self {
            Reach::Unheard if is_cut => Reach::Cut,
            reach => reach,
        }
    }

    /// Returns its keyword, for example `lost`.
    fn word(self) -> &'static str {
        match self {
            Reach::Unheard => "unheard",
            Reach::Cut => "cut",
            Reach::Lost => "lost",
            Reach::Ignored => "ignored",
            Reach::Refused => "refused",
            Reach::Full => "full",
            Reach::Outside => "outside",
            Reach::Closed => "closed",
            Reach::Delivered => "delivered",
        }
    }

    /// Returns its rank. The furthest has the highest.
    pub(crate) fn rank(self) -> u8 {
        self as u8
    }
}

impl fmt::Display for Reach {
    fn fmt<W: fmt::Write>(&self, f: &mut fmt::Formatter<W>) -> fmt::Result {
        f.write_str(self.word())
    }
}

impl Described for Reach {}

impl Serialize for Reach {
    fn serialize<S: Serializer>(&self, out: &mut S) -> Result<(), S::Error> {
        out.str(self.word())
    }
}
