//! The outcomes of the packets for an area of a run, and its totals.

ghost use Rattle.std.specs.Prelude.{◌≡◌};
ghost use Rattle.sim_simulation.specs.Packets.{with_one_frame, delivered_to};

use its_headers::Kind;
use its_words::json_lines::Printed;
use serde::Serialize;
use std::fmt;

/// The outcome of one packet for an area. It prints as its line.
#[derive(Clone, Copy, Debug, PartialEq, Eq, Serialize)]
pub struct SendSummary {
    /// The number of the event that sent it, from 0.
    pub send: usize,
    /// The time of that event, in milliseconds.
    pub moment: u64,
    /// The station that sent it.
    pub station: usize,
    /// Its kind: a geobroadcast or a geoanycast.
    #[serde(rename = "do")]
    pub kind: Printed<Kind>,
    /// The destination port.
    pub port: u16,
    /// How many other stations were inside the area then, with the port open.
    pub inside: usize,
    /// At how many stations a frame of it was delivered to the port.
    pub delivered: usize,
    /// How many frames carried it, with its own.
    pub frames: usize,
    /// The most hops to a delivery: 1 for its own frame, 0 without a delivery.
    pub hops: usize,
    /// The milliseconds from the send to the latest of the stations' first deliveries.
    pub last: u64,
}

impl SendSummary {
    /// Returns the summary without this many frames, which were not sent.
    pub fn without_frames(self, unsent: usize) -> SendSummary {
        SendSummary {
            frames: self.frames.saturating_sub(unsent),
            ..self
        }
    }

    /// Returns the summary with one more frame.
    pub(crate) fn with_frame(self) -> SendSummary
        ensures { result ≡ with_one_frame self }
    {
        SendSummary {
            frames: self.frames.saturating_add(1),
            ..self
        }
    }

    /// Returns the summary with one more delivery after this many hops. `first` says whether it is
    /// the first at its station.
    pub(crate) fn with_delivery(self, hops: usize, first: bool, moment: u64) -> SendSummary
        ensures { result ≡ delivered_to hops first moment self }
    {
        let hops = self.hops.max(hops);
        if !first {
            return SendSummary { hops, ..self };
        }
        SendSummary {
            hops,
            delivered: self.delivered.saturating_add(1),
            last: self.last.max(moment.saturating_sub(self.moment)),
            ..self
        }
    }
}

impl fmt::Display for SendSummary {
    fn fmt<W: fmt::Write>(&self, f: &mut fmt::Formatter<W>) -> fmt::Result {
        let (send, moment, station, port) = (self.send, self.moment, self.station, self.port);
        let Printed(kind) = self.kind;
        write!(f, "send {send} {moment} {station} {kind} port {port}")?;
        let (inside, delivered, frames) = (self.inside, self.delivered, self.frames);
        let (hops, last) = (self.hops, self.last);
        write!(
            f,
            " inside {inside} delivered {delivered} frames {frames} hops {hops} last {last}"
        )
    }
}

/// The counts of a run. It prints as its line.
#[derive(Clone, Copy, Debug, Default, PartialEq, Eq, Serialize)]
pub struct Totals {
    /// Events that were run.
    pub events: usize,
    /// Frames that were sent.
    pub frames: usize,
    /// Entries that delivered a payload to a port.
    pub deliveries: usize,
    /// Frames that were ignored as duplicates.
    pub duplicates: usize,
    /// Frames that were ignored for another reason.
    pub ignored: usize,
    /// Events that were refused.
    pub refused: usize,
}

impl Totals {
    /// Returns the summary without this many frames, which were not sent.
    pub fn without_frames(self, unsent: usize) -> Totals {
        Totals {
            frames: self.frames.saturating_sub(unsent),
            ..self
        }
    }
}

impl fmt::Display for Totals {
    fn fmt<W: fmt::Write>(&self, f: &mut fmt::Formatter<W>) -> fmt::Result {
        let (events, frames, deliveries) = (self.events, self.frames, self.deliveries);
        write!(
            f,
            "total events {events} frames {frames} deliveries {deliveries}"
        )?;
        let (duplicates, ignored, refused) = (self.duplicates, self.ignored, self.refused);
        write!(
            f,
            " duplicates {duplicates} ignored {ignored} refused {refused}"
        )
    }
}
