//! Packets for an area that an event of the scenario asks for, and that aren't sent.

use crate::late_events::{LateEvent, WhyLate};
use its_headers::Kind;
use its_station::OwnCall;
use its_world::{EntryFault, What};
use sim_scenario::events::{Action, AddressedEvent};
use sim_simulation::EventRecord;
use std::io::Write;
use std::{fmt, io};

/// Why a packet for an area isn't sent. It prints as what follows its kind in the file of sends.
#[derive(Clone, Copy)]
enum WhyUnsent {
    /// The station of its id is absent.
    Absent,
    /// The run doesn't reach it.
    Late(WhyLate),
    /// The station refuses it.
    Refused(EntryFault),
}

impl fmt::Display for WhyUnsent {
    fn fmt<W: fmt::Write>(&self, f: &mut fmt::Formatter<W>) -> fmt::Result {
        match self {
            WhyUnsent::Absent => f.write_str("absent"),
            WhyUnsent::Late(WhyLate::AfterUntil(_)) => f.write_str("after until"),
            WhyUnsent::Late(WhyLate::CutShort) => f.write_str("cut short"),
            WhyUnsent::Refused(fault) => write!(f, "refused {}", fault.code()),
        }
    }
}

/// The kind and the port of a packet for an area.
#[derive(Clone, Copy)]
pub(crate) struct AreaSend {
    kind: Kind,
    port: u16,
}

impl AreaSend {
    /// Returns the packet for an area that a call asks for, if there is one.
    pub(crate) fn of(what: &What) -> Option<AreaSend> {
        let (kind, port) = match what {
            What::Call(OwnCall::SendGeobroadcast(request)) => (Kind::Gbc, request.port),
            What::Call(OwnCall::SendGeoanycast(request)) => (Kind::Gac, request.port),
            _ => return None,
        };
        Some(AreaSend { kind, port })
    }

    /// Returns the packet for an area that an action of a scenario sends, if there is one.
    pub(crate) fn of_action(action: &Action) -> Option<AreaSend> {
        let (kind, port) = match action {
            Action::Happens(what) => return AreaSend::of(what),
            Action::GeobroadcastAround(request) => (Kind::Gbc, request.port),
            Action::GeoanycastAround(request) => (Kind::Gac, request.port),
            Action::Leaves => return None,
        };
        Some(AreaSend { kind, port })
    }
}

/// A packet for an area that isn't sent.
#[derive(Clone, Copy)]
pub(crate) struct UnsentPacket {
    moment: u64,
    /// Its station, if the event names one by its number.
    station: Option<usize>,
    packet: AreaSend,
    why: WhyUnsent,
}

impl UnsentPacket {
    /// Returns the packet of an event that was done, which its station refused with this fault.
    pub(crate) fn refused(done: &EventRecord<'_>, fault: EntryFault) -> Option<UnsentPacket> {
        Some(UnsentPacket {
            moment: done.moment,
            station: Some(done.station),
            packet: AreaSend::of(done.what)?,
            why: WhyUnsent::Refused(fault),
        })
    }

    /// Returns the packet of an event whose station is absent.
    pub(crate) fn absent(event: &AddressedEvent) -> Option<UnsentPacket> {
        Some(UnsentPacket {
            moment: event.moment,
            station: None,
            packet: AreaSend::of_action(&event.action)?,
            why: WhyUnsent::Absent,
        })
    }

    /// Returns the packet of an event that the run doesn't reach.
    pub(crate) fn late(event: &LateEvent) -> Option<UnsentPacket> {
        Some(UnsentPacket {
            moment: event.moment,
            station: event.station,
            packet: event.packet?,
            why: WhyUnsent::Late(event.why),
        })
    }

    /// Writes its row without the end of the line. The reason follows the kind, and the columns of
    /// counts are empty.
    pub(crate) fn write<W: Write>(&self, out: &mut W) -> io::Result<()> {
        write!(out, ",{},", self.moment)?;
        if let Some(station) = self.station {
            write!(out, "{station}")?;
        }
        write!(
            out,
            ",{} {},{},,,,,,,,,,,,,",
            self.packet.kind, self.why, self.packet.port
        )
    }
}
