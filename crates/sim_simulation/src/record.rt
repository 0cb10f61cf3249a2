//! The record of an event that was done.

ghost use Rattle.std.specs.Prelude.{◌≡◌};
ghost use Rattle.its_world.specs.Events.{event_of};
ghost use Rattle.sim_simulation.specs.Records.{happening_in, IsRecordOf};

use crate::entry::{EntryKeys, entry_keys, held_entry_keys};
use its_station::OwnCall;
use its_words::json_lines::Octets;
use its_world::{Entry, Event, What, World, frame_of};
use serde::{Described, Serialize, Serializer};
use sim_scenario::events::verb_of;

/// What a station that contends did with a frame when it received one.
#[derive(Clone, Copy, Debug)]
pub enum ContentionStep<'a> {
    /// It holds the frame that its entry names until this time, in milliseconds.
    Waits(u64),
    /// It no longer holds the frames with these numbers, since enough other stations have sent
    /// them.
    Cancels(&'a [usize]),
}

/// An event that was done, and its outcome.
#[derive(Clone, Copy, Debug)]
pub struct EventRecord<'a> {
    /// Its number among the events, from 0.
    pub number: usize,
    /// Its time, in milliseconds.
    pub moment: u64,
    /// The number of its station among the configs.
    pub station: usize,
    /// What it does.
    pub what: &'a What,
    /// Its entry.
    pub entry: &'a Entry,
    /// The octets of the frame that was sent, if one was. Its number is in the entry.
    pub octets: Option<&'a [u8]>,
    /// What a station that contends did with a frame. `None` if nothing was held or cancelled.
    pub contention: Option<ContentionStep<'a>>,
}

impl<'a> EventRecord<'a> {
    /// Returns the record of an event with this number that was done in a world, with its entry,
    /// and with what its station did with a frame, if it contends.
    #[inline]
    pub fn of(
        world: &'a World,
        number: usize,
        event: &'a Event,
        entry: &'a Entry,
        contention: Option<ContentionStep<'a>>,
    ) -> EventRecord<'a>
        ensures number { result.number ≡ number }
        ensures event { happening_in result ≡ event_of event.now }
        ensures entry { result.entry.now ≡ entry.now }
        ensures octets { IsRecordOf world.now result }
        ensures contention { result.contention ≡ contention.entry }
    {
        EventRecord {
            number,
            moment: event.moment,
            station: event.station,
            what: &event.what,
            entry,
            octets: match frame_of(entry) {
                Some(frame) => world.kept_frame(frame),
                None => None,
            },
            contention,
        }
    }

    /// Returns the octets of the frame that is sent with this event, if there is one. A frame that
    /// is held is not sent.
    #[inline(always)]
    pub fn sent_octets(&self) -> Option<&'a [u8]> {
        if self.is_held() { None } else { self.octets }
    }

    /// Whether the frame that the entry names is held.
    #[inline(always)]
    pub fn is_held(&self) -> bool {
        matches!(self.contention, Some(ContentionStep::Waits(_)))
    }

    /// Returns how many frames are no longer held, since enough other stations have sent them.
    #[inline(always)]
    pub fn cancelled(&self) -> usize {
        match self.contention {
            Some(ContentionStep::Cancels(frames)) => frames.len(),
            _ => 0,
        }
    }
}

impl<'a> EventRecord<'a> {
    /// Returns the keys of its entry as it is printed: without the frame, if that is held.
    pub(crate) fn keys(&self) -> EntryKeys<'a> {
        if self.is_held() {
            held_entry_keys(self.entry)
        } else {
            entry_keys(self.entry)
        }
    }

    /// Returns the frames that it cancels, if it cancels any.
    pub fn cancelled_frames(&self) -> Option<&'a [usize]> {
        match self.contention {
            Some(ContentionStep::Cancels(frames)) => Some(frames),
            _ => None,
        }
    }
}

/// A frame that a station holds, and until when.
#[derive(Clone, Copy)]
pub(crate) struct HeldFrame {
    pub(crate) frame: Option<usize>,
    pub(crate) until: Option<u64>,
}

impl HeldFrame {
    /// Returns the held frame of an event. Its fields are `None` if no frame is held.
    pub(crate) fn of(done: &EventRecord<'_>) -> HeldFrame {
        match done.contention {
            Some(ContentionStep::Waits(until)) => HeldFrame {
                frame: frame_of(done.entry),
                until: Some(until),
            },
            _ => HeldFrame {
                frame: None,
                until: None,
            },
        }
    }
}

/// The numbers of frames, as an array.
#[derive(Clone, Copy)]
pub(crate) struct FrameNumbers<'a>(&'a [usize]);

impl Described for FrameNumbers<'_> {}

impl Serialize for FrameNumbers<'_> {
    fn serialize<S: Serializer>(&self, out: &mut S) -> Result<(), S::Error> {
        out.begin_seq(Some(self.0.len()))?;
        for frame in self.0 {
            frame.serialize(out)?;
        }
        out.end_seq()
    }
}

/// The JSON object of an event, with its keys in order.
#[derive(Clone, Copy, Serialize)]
pub(crate) struct EventLine<'a> {
    event: usize,
    moment: u64,
    station: usize,
    #[serde(rename = "do")]
    word: &'static str,
    #[serde(skip_serializing_if = "Option::is_none")]
    frame: Option<usize>,
    #[serde(skip_serializing_if = "Option::is_none")]
    lat: Option<i32>,
    #[serde(skip_serializing_if = "Option::is_none")]
    lon: Option<i32>,
    #[serde(flatten)]
    told: EntryKeys<'a>,
    #[serde(skip_serializing_if = "Option::is_none")]
    waits: Option<usize>,
    #[serde(skip_serializing_if = "Option::is_none")]
    until: Option<u64>,
    #[serde(skip_serializing_if = "Option::is_none")]
    octets: Option<Octets<'a>>,
    #[serde(skip_serializing_if = "Option::is_none")]
    cancels: Option<FrameNumbers<'a>>,
}

impl<'a> EventLine<'a> {
    pub(crate) fn of(done: &EventRecord<'a>) -> EventLine<'a> {
        let (frame, lat, lon) = match done.what {
            What::Deliver(frame) => (Some(*frame), None, None),
            What::Call(OwnCall::MoveTo { place, .. }) => (
                None,
                Some(place.lat()),
                Some(place.lon()),
            ),
            What::Call(_) => (None, None, None),
        };
        let held = HeldFrame::of(done);
        EventLine {
            event: done.number,
            moment: done.moment,
            station: done.station,
            word: verb_of(done.what).word(),
            frame,
            lat,
            lon,
            told: done.keys(),
            waits: held.frame,
            until: held.until,
            octets: done.octets.map(Octets),
            cancels: done.cancelled_frames().map(FrameNumbers),
        }
    }
}
