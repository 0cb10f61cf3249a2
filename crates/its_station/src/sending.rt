//! What a station originates (EN 302 636-4-1 clause 10, in this profile): beacons, single-hop
//! broadcasts, geobroadcasts and geoanycasts.

ghost use Rattle.std.specs.Prelude.{◌≡◌, ◌≢◌, ◌≤◌, ◌<◌, ◌^◌, ◌+◌, ℕ, List, length};
ghost use Rattle.std.specs.Prelude.{None, Err, IfOk, IfSome, OnErr, IsTrue, nat_le, true};
ghost use Rattle.its_gnvalue.specs.Values.{mid_of, broadcast};
ghost use Rattle.its_model.specs.Packet.{area_body};
ghost use Rattle.its_model.specs.Calls.{Own, area_call};
ghost use Rattle.its_model.specs.Calls.OwnCall.{Tick, SendShb, SendGbc, SendGac};
ghost use Rattle.its_model.specs.History.{Reception};
ghost use Rattle.its_model.specs.Station.{StationModel, station_step, moment_refusal, own_refusal};
ghost use Rattle.its_model.specs.Station.{first, beacon_of, area_packet, target_of};
ghost use Rattle.its_model.specs.Station.{decided, number_after};
ghost use Rattle.its_headers.specs.Fields.{message_of};
ghost use Rattle.its_headers.specs.Packets.{pdu_of_packet, hops_left};
ghost use Rattle.its_linkframe.specs.Frames.{EncodesFrame, sent_packet};
ghost use Rattle.its_loctable.specs.Content.{Represents};
ghost use Rattle.its_station.specs.State.{model_of, RepresentsStation};
ghost use Rattle.its_station.specs.Beside.{send_shb_for_step, shb_for, shb_refusal};
ghost use Rattle.its_station.specs.Steps.{IsStepOf};
ghost use Rattle.its_station.specs.Requests.{gbc_request, shb_request, kind_cast, kind_of_cast, area_pdu};
ghost use Rattle.its_station.specs.Requests.{TellsSent, TellsTick};

use crate::refused::Refused;
use crate::requests::{GbcRequest, SHORT_LIFETIME, ShbOptions, ShbRequest};
use crate::station::Station;
use its_btp::{HEADER_LENGTH, join_into};
use its_forwarding::{Choice, choose};
use its_geometry::Area;
use its_gnvalue::{Hops, Lifetime, Mac, NoMemory, TrafficClass};
use its_headers::{AreaPacket, Header, Kind, Packet, Payload, SingleHopBroadcast};
use its_linkframe::write_frame;
use its_loctable::LocationStore;
use std::alloc::Global;

/// The longest payload of a request, in octets.
pub const MAX_PAYLOAD: usize = 1394;

/// How much later than due a beacon may be asked for, in milliseconds (profile).
pub(crate) const MAX_JITTER: u16 = 750;

/// From one packet of a station's own to its next beacon, in milliseconds (profile).
const BEACON_WAIT: u64 = 3000;

/// The kinds of packet for an area.
#[derive(Clone, Copy, Debug, PartialEq, Eq)]
pub enum AreaCast {
    /// To all stations in the area.
    Geobroadcast,
    /// To any one station in it.
    Geoanycast,
}

impl AreaCast {
    /// The kind of its packets.
    pub fn kind(self) -> Kind
        ensures { result ≡ kind_cast self }
    {
        match self {
            AreaCast::Geobroadcast => Kind::Gbc,
            AreaCast::Geoanycast => Kind::Gac,
        }
    }
}

impl<S: LocationStore> Station<S> {
    /// The frame of a BEACON, where one is due: 3000 ms after the last packet of the station's own,
    /// and `jitter` ms later. Refused for its moment (S1, S2), by `JitterRange` (S9) for a jitter
    /// over 750, and by `NoMemory` (S5) where a beacon is due and its frame finds no memory.
    pub fn tick(&mut self, now: u64, jitter: u16) -> Result<Option<Vec<u8>>, Refused>
        ensures step { (s : StationModel) → RepresentsStation self.old s →
            IsStepOf TellsTick result self.new (station_step s now (Own (Tick jitter))) }
        ensures unchanged { OnErr result (self.new ≡ self.old) }
        ensures memory { (s : StationModel) → RepresentsStation self.old s →
            result ≡ Err Refused.NoMemory →
            (first (moment_refusal s now) (own_refusal s (Tick jitter)) ≡ None)
            × IsTrue (nat_le (s.beacon_from + jitter) now) }
        ensures short_frame { IfOk result (λ beacon.
            IfSome beacon (λ frame. length frame.items ≤ 1468)) }
    {
        self.check_moment(now)?;
        if jitter > MAX_JITTER {
            return Err(Refused::JitterRange);
        }
        if !self.is_beacon_due(now, jitter) {
            self.set_clock(now);
            return Ok(None);
        }
        let frame = self.beacon_frame()?;
        self.mark_sent(now);
        Ok(Some(frame))
    }

    /// The frame of a single-hop broadcast (SHB) of this payload, to all stations in reach. Refused
    /// for its moment (S1, S2), by `PayloadTooLong` (S6) over 1394 octets, and by `NoMemory` (S5).
    pub fn send_shb(&mut self, now: u64, r: &ShbRequest<'_>) -> Result<Vec<u8>, Refused>
        ensures step { (s : StationModel) → RepresentsStation self.old s →
            IsStepOf TellsSent result self.new
            (station_step s now (Own (SendShb (shb_request r.now)))) }
        ensures unchanged { OnErr result (self.new ≡ self.old) }
        ensures memory { (s : StationModel) → RepresentsStation self.old s →
            result ≡ Err Refused.NoMemory →
            first (moment_refusal s now) (own_refusal s (SendShb (shb_request r.now))) ≡ None }
        ensures short_frame { IfOk result (λ frame. length frame.items ≤ 1468) }
    {
        self.send_shb_for(now, r, ShbOptions::default())
    }

    /// The frame of a single-hop broadcast with a lifetime and media-dependent data of its own. It
    /// is refused as one of `send_shb` is.
    pub fn send_shb_for(
        &mut self,
        now: u64,
        r: &ShbRequest<'_>,
        options: ShbOptions,
    ) -> Result<Vec<u8>, Refused>
        ensures step { (s : StationModel) → RepresentsStation self.old s →
            IsStepOf TellsSent result self.new
            (send_shb_for_step s now options (shb_request r.now)) }
        ensures unchanged { OnErr result (self.new ≡ self.old) }
        ensures memory { (s : StationModel) → RepresentsStation self.old s →
            result ≡ Err Refused.NoMemory → shb_refusal s now (shb_request r.now) ≡ None }
        ensures short_frame { IfOk result (λ frame. length frame.items ≤ 1468) }
    {
        self.check_moment(now)?;
        if r.payload.len() > MAX_PAYLOAD {
            return Err(Refused::PayloadTooLong);
        }
        let frame = self.shb_frame(r, options)?;
        self.mark_sent(now);
        Ok(frame)
    }

    /// The frame of a geobroadcast (GBC) of this payload, to all stations in an area, with the
    /// station's next sequence number. Refused for its moment (S1, S2), by `PayloadTooLong` (S6)
    /// over 1394 octets, by `HopLimitZero` (S7), and by `NoMemory` (S5).
    pub fn send_geobroadcast(&mut self, now: u64, r: &GbcRequest<'_>) -> Result<Vec<u8>, Refused>
        ensures step { (s : StationModel) → RepresentsStation self.old s →
            IsStepOf TellsSent result self.new
            (station_step s now (Own (SendGbc (gbc_request r.now)))) }
        ensures unchanged { OnErr result (self.new ≡ self.old) }
        ensures memory { (s : StationModel) → RepresentsStation self.old s →
            result ≡ Err Refused.NoMemory →
            first (moment_refusal s now) (own_refusal s (SendGbc (gbc_request r.now))) ≡ None }
        ensures short_frame { IfOk result (λ frame. length frame.items ≤ 1468) }
    {
        self.send_to_area(now, AreaCast::Geobroadcast, r)
    }

    /// The frame of a geoanycast (GAC) of this payload, to any one station in an area, with the
    /// station's next sequence number. It is refused as a geobroadcast is.
    pub fn send_geoanycast(&mut self, now: u64, r: &GbcRequest<'_>) -> Result<Vec<u8>, Refused>
        ensures step { (s : StationModel) → RepresentsStation self.old s →
            IsStepOf TellsSent result self.new
            (station_step s now (Own (SendGac (gbc_request r.now)))) }
        ensures unchanged { OnErr result (self.new ≡ self.old) }
        ensures memory { (s : StationModel) → RepresentsStation self.old s →
            result ≡ Err Refused.NoMemory →
            first (moment_refusal s now) (own_refusal s (SendGac (gbc_request r.now))) ≡ None }
        ensures short_frame { IfOk result (λ frame. length frame.items ≤ 1468) }
    {
        self.send_to_area(now, AreaCast::Geoanycast, r)
    }

    /// The frame of either kind of packet for an area: what `send_geobroadcast` and
    /// `send_geoanycast` do.
    pub fn send_to_area(
        &mut self,
        now: u64,
        cast: AreaCast,
        r: &GbcRequest<'_>,
    ) -> Result<Vec<u8>, Refused>
        ensures step { (s : StationModel) → RepresentsStation self.old s →
            IsStepOf TellsSent result self.new
            (station_step s now (Own (area_call (kind_of_cast cast) (gbc_request r.now)))) }
        ensures unchanged { OnErr result (self.new ≡ self.old) }
        ensures memory { (s : StationModel) → RepresentsStation self.old s →
            result ≡ Err Refused.NoMemory → first (moment_refusal s now)
            (own_refusal s (area_call (kind_of_cast cast) (gbc_request r.now))) ≡ None }
        ensures short_frame { IfOk result (λ frame. length frame.items ≤ 1468) }
    {
        self.check_moment(now)?;
        if r.payload.len() > MAX_PAYLOAD {
            return Err(Refused::PayloadTooLong);
        }
        if r.max_hops == 0 {
            return Err(Refused::HopLimitZero);
        }
        let frame = self.area_frame(now, cast, r)?;
        self.mark_area_sent(now);
        Ok(frame)
    }

    fn is_beacon_due(&self, now: u64, jitter: u16) -> bool
        ensures { result ≡ nat_le (self.now.beacon_from + jitter) now }
    {
        self.beacon_from + u64::from(jitter) <= now
    }

    fn mark_sent(&mut self, now: u64)
        requires from { self.old.clock ≤ now }
        requires to { now ≤ 2 ^ 62 }
        ensures { self.new ≡ record self.old { clock = now; beacon_from = now + 3000 } }
    {
        self.clock = now;
        self.beacon_from = now + BEACON_WAIT;
    }

    fn mark_area_sent(&mut self, now: u64)
        requires from { self.old.clock ≤ now }
        requires to { now ≤ 2 ^ 62 }
        ensures { self.new ≡ record self.old {
          clock = now;
          beacon_from = now + 3000;
          next_number = number_after self.old.next_number;
        } }
    {
        self.clock = now;
        self.beacon_from = now + BEACON_WAIT;
        self.next_number = self.next_number.wrapping_add(1);
    }

    fn beacon_frame(&self) -> Result<Vec<u8>, NoMemory>
        ensures octets { (ports : List ℕ) (history : List Reception) →
            IfOk result (λ w. EncodesFrame (beacon_of (model_of self.now ports history)) w.items) }
        ensures short_frame { IfOk result (λ frame. length frame.items ≤ 1468) }
    {
        let lifetime = Lifetime::from_octet(SHORT_LIFETIME);
        let header = self.short_header(lifetime, TrafficClass::from_octet(0));
        let packet = Packet::Beacon(header);
        write_frame(self.alloc, Mac::BROADCAST, self.mac(), &packet)
    }

    fn shb_frame(&self, r: &ShbRequest<'_>, options: ShbOptions) -> Result<Vec<u8>, NoMemory>
        requires { length r.now.payload.now ≤ 1394 }
        ensures octets { (ports : List ℕ) (history : List Reception) → IfOk result (λ w.
            EncodesFrame (shb_for (model_of self.now ports history) options (shb_request r.now))
            w.items) }
        ensures short_frame { IfOk result (λ frame. length frame.items ≤ 1468) }
    {
        let packet = Packet::Shb(SingleHopBroadcast {
            header: self.short_header(options.lifetime, r.class),
            media: options.media,
            payload: payload_of(self.alloc, r.port, r.info, r.payload)?,
        });
        write_frame(self.alloc, Mac::BROADCAST, self.mac(), &packet)
    }

    fn area_frame(&self, now: u64, cast: AreaCast, r: &GbcRequest<'_>) -> Result<Vec<u8>, NoMemory>
        requires time { now ≤ 2 ^ 62 }
        requires size { length r.now.payload.now ≤ 1394 }
        requires hops { 0 < r.now.max_hops }
        ensures octets { (ports : List ℕ) (history : List Reception) →
            Represents self.now.remember self.now.content history now → IfOk result (λ w.
            EncodesFrame (area_packet (model_of self.now ports history) now (gbc_request r.now)
            (area_body (kind_of_cast cast) self.now.next_number r.now.area
            (gbc_request r.now).message))
            w.items) }
        ensures short_frame { IfOk result (λ frame. length frame.items ≤ 1468) }
    {
        let target = self.area_target(now, &r.area);
        let packet = self.area_packet(cast, r)?;
        write_frame(self.alloc, target, self.mac(), &packet)
    }

    fn area_packet(&self, cast: AreaCast, r: &GbcRequest<'_>) -> Result<Packet, NoMemory>
        requires size { length r.now.payload.now ≤ 1394 }
        requires hops { 0 < r.now.max_hops }
        ensures pdu { IfOk result (λ packet. pdu_of_packet packet
            ≡ area_pdu self.now.vector self.now.mobile self.now.next_number (kind_of_cast cast)
            (gbc_request r.now)) }
        ensures hops { IfOk result (λ packet. hops_left packet ≡ r.now.max_hops) }
    {
        let Some(hops) = Hops::new(r.max_hops, r.max_hops) else {
            unreachable!()
        };
        let payload = payload_of(self.alloc, r.port, r.info, r.payload)?;
        let packet = AreaPacket {
            header: self.header(hops, r.lifetime, r.class),
            number: self.next_number,
            area: r.area,
            payload,
        };
        match cast {
            AreaCast::Geobroadcast => Ok(Packet::Gbc(packet)),
            AreaCast::Geoanycast => Ok(Packet::Gac(packet)),
        }
    }

    /// To whom a packet of the station's own for an area goes: without a sender nobody is no
    /// choice.
    fn area_target(&self, now: u64, area: &Area) -> Mac
        requires { now ≤ 2 ^ 62 }
        ensures { (ports : List ℕ) (history : List Reception) →
            Represents self.now.remember self.now.content history now →
            result ≡ target_of (decided (model_of self.now ports history) now area.now None) }
    {
        match choose(&self.store, now, self.vector.place(), area, None) {
            Choice::To(mac) => mac,
            Choice::Broadcast | Choice::Drop => Mac::BROADCAST,
        }
    }

    /// The header of a beacon or a single-hop broadcast: one hop.
    fn short_header(&self, lifetime: Lifetime, class: TrafficClass) -> Header
        ensures { result ≡ record {
          hops = record { left = 1; max = 1 };
          lifetime = lifetime;
          class = class;
          mobile = self.now.mobile;
          vector = self.now.vector;
        } }
    {
        let Some(hops) = Hops::new(1, 1) else {
            unreachable!()
        };
        self.header(hops, lifetime, class)
    }

    /// The header of a packet of the station's own: it says whether the station is mobile.
    fn header(&self, hops: Hops, lifetime: Lifetime, class: TrafficClass) -> Header
        ensures { result ≡ record {
          hops = hops;
          lifetime = lifetime;
          class = class;
          mobile = self.now.mobile;
          vector = self.now.vector;
        } }
    {
        Header {
            hops,
            lifetime,
            class,
            mobile: self.mobile,
            vector: self.vector,
        }
    }
}

/// The payload of a packet: the BTP-B header, and what is sent to the port.
fn payload_of(alloc: Global, port: u16, info: u16, payload: &[u8]) -> Result<Payload, NoMemory>
    requires { length payload.now ≤ 1394 }
    ensures { IfOk result (λ p.
        message_of p ≡ record { port = port; info = info; payload = payload.now }) }
{
    let mut octets = Vec::from_elem(alloc, 0, HEADER_LENGTH + payload.len())?;
    let Ok(_) = join_into(port, info, payload, octets.as_mut_slice()) else {
        unreachable!()
    };
    let Ok(made) = Payload::new(octets) else {
        unreachable!()
    };
    Ok(made)
}
