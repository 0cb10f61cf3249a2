//! Laws on a single call: what a refusal leaves, what has to be delivered, ports, sends.

ghost use Rattle.std.specs.Prelude.{◌≡◌, ◌≢◌, ℕ, ◌≤◌, List, length, Option, Some, None, IsTrue};
ghost use Rattle.std.specs.Prelude.{IsFalse};
ghost use Rattle.its_geometry.specs.Area.{GeoArea, area_holds};
ghost use Rattle.its_gnvalue.specs.Values.{Position, mid_of};
ghost use Rattle.its_model.specs.Packet.{AreaKind, Message, Transmission, area_body};
ghost use Rattle.its_model.specs.Packet.Body.{shb};
ghost use Rattle.its_model.specs.History.{Known, is_among, is_remembered};
ghost use Rattle.its_model.specs.Stations.{stations_at, is_full, AreDistinct};
ghost use Rattle.its_model.specs.Decision.{decision};
ghost use Rattle.its_model.specs.Decision.Decision.{Drop};
ghost use Rattle.its_model.specs.Calls.{Call, Refusal};
ghost use Rattle.its_model.specs.Calls.Call.{Receive};
ghost use Rattle.its_model.specs.Calls.Answer.{Accepted, Refused};
ghost use Rattle.its_model.specs.Station.{StationModel, last_moment, max_open_ports, is_for};
ghost use Rattle.its_model.specs.Station.{station_step};

/// A call that is refused changes nothing; one that isn't sets the clock to its moment, which isn't
/// earlier.
pub fn a_refused_call_changes_nothing()
    ensures refused { (s : StationModel) (moment : ℕ) (call : Call) (refusal : Refusal) →
        (station_step s moment call).answer ≡ Refused refusal
        → (station_step s moment call).station ≡ s }
    ensures done { (s : StationModel) (moment : ℕ) (call : Call) →
        ((refusal : Refusal) → (station_step s moment call).answer ≢ Refused refusal) →
        (s.clock ≤ moment) × (moment ≤ last_moment)
        × ((station_step s moment call).station.clock ≡ moment) }
{}

/// A packet of another source that comes in time, to the station or to all, with its port open and
/// room for its source, is delivered in that very call.
///
/// - `inside`: a packet for an area that holds the station, with a number that isn't remembered.
/// - `single_hop`: a single-hop broadcast from its source's own link address.
pub fn a_handing_is_owed()
    ensures inside { (s : StationModel) (moment : ℕ) (t : Transmission)
        (kind : AreaKind) (number : ℕ) (area : GeoArea) (message : Message) →
        s.clock ≤ moment → moment ≤ last_moment →
        IsTrue (is_for s t) → t.pdu.vector.address ≢ s.address →
        t.pdu.body ≡ area_body kind number area message →
        IsFalse (is_remembered s.remember t.pdu.vector.address number moment s.history) →
        IsFalse (is_full s.capacity t.pdu.vector.address
        (stations_at s.remember moment s.history)) →
        IsTrue (is_among message.port s.ports) → IsTrue (area_holds area s.vector.place) →
        (relayed : Option Transmission)
        × ((station_step s moment (Receive t)).answer ≡ Accepted (Some message) relayed) }
    ensures single_hop { (s : StationModel) (moment : ℕ) (t : Transmission)
        (media : List ℕ) (message : Message) →
        s.clock ≤ moment → moment ≤ last_moment →
        IsTrue (is_for s t) → t.pdu.vector.address ≢ s.address →
        t.pdu.body ≡ shb media message → mid_of t.pdu.vector.address ≡ t.link_source →
        IsFalse (is_full s.capacity t.pdu.vector.address
        (stations_at s.remember moment s.history)) →
        IsTrue (is_among message.port s.ports) →
        (station_step s moment (Receive t)).answer ≡ Accepted (Some message) None }
{}

/// The open ports stay each there once, and no more than may be open at once.
pub fn open_ports_are_few()
    ensures { (s : StationModel) (moment : ℕ) (call : Call) →
        AreDistinct s.ports → length s.ports ≤ max_open_ports →
        let after = (station_step s moment call).station in
        AreDistinct after.ports × (length after.ports ≤ max_open_ports) }
{}

/// A packet of a station's own for an area goes to someone: where there is no sender, the decision
/// isn't to drop it.
pub fn no_send_is_dropped()
    ensures { (stations : List Known) (own : Position) (area : GeoArea)
        → decision stations own area None ≢ Drop }
{}
