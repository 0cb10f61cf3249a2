//! Queries of what a station knows. They change nothing.

ghost use Rattle.std.specs.Prelude.{◌≡◌, ◌≤◌, ◌^◌, ◌∷◌, [], ℕ, IfOk, MatchResult, IsTrue, length};
ghost use Rattle.its_model.specs.Station.{StationModel};
ghost use Rattle.its_station.specs.State.{RepresentsStation};
ghost use Rattle.its_lines.specs.Knowing.{Counted, IsKnownAt, IsRefusedAt, TellsBeacon, TellsFrame};
ghost use Rattle.its_lines.specs.Knowing.{TellsNeighbours, TellsQuery, TellsSealed, TellsSource};
ghost use Rattle.its_lines.specs.Knowing.{moment_of};
ghost use Rattle.its_lines.specs.Serving.{RepresentsCounted};

use crate::frame_octets::FrameOctets;
use crate::request::Query;
use crate::response::{Known, SealFault};
use its_gnvalue::{GnAddress, LongPv, NoMemory};
use its_linkframe::{read_frame, seal_frame};
use its_loctable::{LocationStore, SortedTable};
use its_station::{LAST_MOMENT, Refused, Station};
use its_unit::Unit;
use std::alloc::{AllocError, Global};

/// The greatest number of neighbours in one answer.
const MOST_NEIGHBOURS: usize = 32;

/// Answers a query, for the given time, otherwise for that of the station's clock. Fails if an
/// allocation failed.
pub(crate) fn answer_query(
    alloc: Global,
    unit: &Unit<SortedTable>,
    at: Option<u64>,
    query: Query,
) -> Result<Known, AllocError>
    ensures { (s : Counted) → RepresentsCounted unit.now s →
        IfOk result (TellsQuery s at query) }
{
    let station = unit.station();
    let now = at.unwrap_or(station.clock());
    match query {
        Query::NextBeacon(jitter) => Ok(next_beacon(station, jitter)),
        Query::Neighbours(after) => first_neighbours(alloc, station, now, after),
        Query::LookUp(address) => Ok(look_up(station, now, address)),
        Query::ReadFrame(frame) => Ok(known_frame(frame)),
        Query::Counts => Ok(Known::Counts(unit.counts(), unit.contention_counts())),
        Query::NextDue => Ok(Known::NextDue(unit.next_due())),
        Query::Seal { frame, message } => seal(alloc, frame.as_slice(), message.as_slice()),
    }
}

/// Returns the secured frame of a frame, with this message in place of its plain part.
fn seal(alloc: Global, frame: &[u8], message: &[u8]) -> Result<Known, AllocError>
    ensures { IfOk result (TellsSealed frame.now message.now) }
{
    let view = match read_frame(frame) {
        Ok(view) => view,
        Err(fault) => return Ok(Known::NoFrame(fault)),
    };
    match seal_frame(alloc, &view, message) {
        Ok(Some(sealed)) => Ok(Known::Sealed(sealed)),
        Ok(None) if message.is_empty() => Ok(Known::NotSealed(SealFault::MessageEmpty)),
        Ok(None) => Ok(Known::NotSealed(SealFault::TooLong)),
        Err(NoMemory) => Err(AllocError),
    }
}

/// Returns the earliest time at which a `tick` with this jitter sends a beacon.
fn next_beacon(station: &Station<SortedTable>, jitter: u16) -> Known
    ensures { (m : StationModel) → RepresentsStation station.now m →
        TellsBeacon m jitter result }
{
    if jitter > 750 {
        return Known::Refused(Refused::JitterRange);
    }
    Known::NextBeacon(station.beacon_at(jitter))
}

/// Checks that a query for a time can be answered: S1, then S2.
fn check_moment(station: &Station<SortedTable>, now: u64) -> Result<(), Refused>
    ensures known { (m : StationModel) → RepresentsStation station.now m →
        MatchResult result (λ _. IsKnownAt m now) (IsRefusedAt m now) }
    ensures range { IfOk result (λ _. now ≤ 2 ^ 62) }
{
    if now < station.clock() {
        return Err(Refused::MomentEarlier);
    }
    if now > LAST_MOMENT {
        return Err(Refused::MomentTooLate);
    }
    Ok(())
}

/// Returns the position vector of the live source of an address.
fn look_up(station: &Station<SortedTable>, now: u64, address: GnAddress) -> Known
    ensures { (m : StationModel) → RepresentsStation station.now m →
        TellsSource m now address result }
{
    if let Err(refused) = check_moment(station, now) {
        return Known::Refused(refused);
    }
    match station.table().lookup(now, address) {
        Some(known) => Known::Found(known.vector),
        None => Known::Unknown,
    }
}

/// Returns the first neighbours above an address, and whether there are more.
fn first_neighbours(
    alloc: Global,
    station: &Station<SortedTable>,
    now: u64,
    after: Option<GnAddress>,
) -> Result<Known, AllocError>
    ensures { (m : StationModel) → RepresentsStation station.now m →
        IfOk result (TellsNeighbours m now after) }
{
    if let Err(refused) = check_moment(station, now) {
        return Ok(Known::Refused(refused));
    }
    let table = station.table();
    let mut vectors: Vec<LongPv> = Vec::new(alloc);
    let mut last = after;
    for _ in 0..MOST_NEIGHBOURS {
        let Some(vector) = table.next_neighbour(now, last) else {
            return Ok(Known::Neighbours {
                vectors,
                more: false,
            });
        };
        last = Some(vector.address());
        vectors.push(vector)?;
    }
    let more = table.next_neighbour(now, last).is_some();
    Ok(Known::Neighbours { vectors, more })
}

/// Returns whether octets are a frame, and otherwise their first fault.
fn known_frame(octets: Vec<u8>) -> Known
    ensures { TellsFrame octets.items result }
{
    match read_frame(octets.as_slice()) {
        Ok(_) => Known::Frame(FrameOctets::new(octets)),
        Err(fault) => Known::NoFrame(fault),
    }
}
