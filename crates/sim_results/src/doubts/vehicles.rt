//! What the rows of a file of moves do with their vehicles.

use crate::doubts::MovesRead;
use crate::doubts::bounds::Bounds;
use crate::doubts::doubt::{BeginDoubt, Doubt, RowsApart};
use its_gnvalue::{NoMemory, Place};
use its_station::OwnCall;
use its_world::What;
use sim_scenario::events::{Action, AddressedEvent};
use sim_scenario::{MovesTimeline, Scenario};
use std::alloc::Global;

/// Tenths of a microdegree in 0.01 degree.
const COARSE: i32 = 100_000;

/// Rows count as too far apart if at least one in this many is.
const ONE_OF: usize = 10;

/// A begin below this number of milliseconds may be meant in seconds.
const SECOND: u64 = 1000;

/// The time to the first row, in milliseconds, from which on the begin of a run is doubtful.
const LONGEST_WAIT: u64 = 10_000;

/// A vehicle: its id, and the time of its last row, if an event did not move a station then.
#[derive(Drop)]
struct Vehicle {
    id: String,
    last: Option<u64>,
}

/// Rows that have the id and the time of another row.
#[derive(Clone, Copy)]
struct SameTime {
    rows: usize,
    /// The index of the vehicle of the first one.
    vehicle: usize,
    moment: u64,
}

/// What the rows of a file of moves do with their vehicles.
#[derive(Drop)]
pub(crate) struct VehicleWatch {
    alloc: Global,
    /// How many stations are the scenario's own. The numbers of vehicles follow them.
    own: usize,
    vehicles: Vec<Vehicle>,
    /// The times at which an event of the scenario moves a station. Rows of these times are not
    /// counted.
    moved: Vec<u64>,
    rows: usize,
    /// The time of the first row.
    first: Option<u64>,
    apart: RowsApart,
    same: Option<SameTime>,
    /// Whether all positions so far are multiples of 0.01 degree, and where they are.
    are_coarse: bool,
    bounds: Bounds,
}

impl VehicleWatch {
    /// Returns the watch of a run that has not begun.
    pub(crate) fn new(
        alloc: Global,
        scenario: &Scenario,
        timeline: &MovesTimeline,
    ) -> Result<VehicleWatch, NoMemory> {
        Ok(VehicleWatch {
            alloc,
            own: scenario.stations.len(),
            vehicles: Vec::new(alloc),
            moved: moves_of(alloc, timeline.events.as_slice())?,
            rows: 0,
            first: None,
            apart: RowsApart {
                gone: u64::from(timeline.moves.gone),
                least: u64::MAX,
                ..RowsApart::default()
            },
            same: None,
            are_coarse: true,
            bounds: Bounds::none(),
        })
    }

    /// Notes that a row made the station of the vehicle with this id.
    pub(crate) fn take_made(&mut self, id: &str) -> Result<(), NoMemory> {
        let id = String::from_str(self.alloc, id)?;
        Ok(self.vehicles.push(Vehicle { id, last: None })?)
    }

    /// Takes the move of a station.
    pub(crate) fn take_move(&mut self, station: usize, moment: u64, place: Place) {
        let Some(number) = station.checked_sub(self.own) else {
            return;
        };
        let is_moved = self.moved.as_slice().contains(&moment);
        self.first = self.first.or(Some(moment));
        let Some(vehicle) = self.vehicles.get_mut(number) else {
            return;
        };
        let last = vehicle.last;
        vehicle.last = (!is_moved).then_some(moment);
        if is_moved {
            return;
        }
        self.rows = self.rows.saturating_add(1);
        self.are_coarse &= is_coarse(place);
        self.bounds.extend(place);
        if let Some(last) = last {
            self.take_step(number, moment, moment.saturating_sub(last));
        }
    }

    /// Takes a row of a vehicle, which is `span` after the one before.
    fn take_step(&mut self, vehicle: usize, moment: u64, span: u64) {
        self.apart.of = self.apart.of.saturating_add(1);
        if span > self.apart.gone {
            self.apart.rows = self.apart.rows.saturating_add(1);
            self.apart.least = self.apart.least.min(span);
            self.apart.most = self.apart.most.max(span);
        }
        if span > 0 {
            return;
        }
        match &mut self.same {
            Some(same) => same.rows = same.rows.saturating_add(1),
            None => {
                self.same = Some(SameTime {
                    rows: 1,
                    vehicle,
                    moment,
                });
            }
        }
    }

    /// Adds what is doubtful about the rows that were read. `warning` is the first time at which
    /// the scenario warns.
    pub(crate) fn find(
        &self,
        timeline: &MovesTimeline,
        read: MovesRead,
        warning: Option<u64>,
        found: &mut Vec<Doubt>,
    ) -> Result<(), NoMemory> {
        let begin = timeline.moves.begin;
        if let Some(doubt) = self.begin_doubt(begin, timeline.air.until, read, warning) {
            found.push(Doubt::Begin(doubt))?;
        }
        let apart = self.apart;
        if apart.rows > 0 && apart.rows.saturating_mul(ONE_OF) >= apart.of {
            found.push(Doubt::RowsApart(apart))?;
        }
        if let Some(same) = self.same {
            self.find_same(begin, same, found)?;
        }
        if self.are_coarse && self.rows > 1 && !self.bounds.are_within(1) {
            found.push(Doubt::CoarsePositions { rows: self.rows })?;
        }
        Ok(())
    }

    /// Adds that rows have the same time.
    fn find_same(
        &self,
        begin: u64,
        same: SameTime,
        found: &mut Vec<Doubt>,
    ) -> Result<(), NoMemory> {
        let Some(vehicle) = self.vehicles.get(same.vehicle) else {
            return Ok(());
        };
        let id = String::from_str(self.alloc, vehicle.id.as_str())?;
        Ok(found.push(Doubt::SameTime {
            rows: same.rows,
            id,
            at: same.moment.saturating_add(begin),
        })?)
    }

    /// Returns what is doubtful about the time of the file at which the run begins.
    fn begin_doubt(
        &self,
        begin: u64,
        until: Option<u64>,
        read: MovesRead,
        warning: Option<u64>,
    ) -> Option<BeginDoubt> {
        let Some(moment) = self.first else {
            return Some(no_row_doubt(begin, until, read));
        };
        let first = moment.saturating_add(begin);
        if begin > 0 && begin < SECOND && moment > 0 {
            return Some(BeginDoubt::BetweenRows { begin, first });
        }
        match warning {
            Some(warning) if moment > LONGEST_WAIT && warning < moment => {
                Some(BeginDoubt::BeforeRows { begin, first })
            }
            _ => None,
        }
    }
}

/// Returns what is doubtful about a run without a row.
fn no_row_doubt(begin: u64, until: Option<u64>, read: MovesRead) -> BeginDoubt {
    match until {
        _ if read.lines <= 1 => BeginDoubt::NoRows,
        Some(until) if read.clock >= begin => BeginDoubt::EndsBeforeRows {
            first: read.clock,
            end: until.saturating_add(begin),
        },
        _ => BeginDoubt::AfterRows {
            begin,
            last: read.clock,
        },
    }
}

/// Whether a position is a multiple of 0.01 degree.
fn is_coarse(place: Place) -> bool {
    place.lat() % COARSE == 0 && place.lon() % COARSE == 0
}

/// Returns the times of the events that move a station.
fn moves_of(alloc: Global, events: &[AddressedEvent]) -> Result<Vec<u64>, NoMemory> {
    let mut moments = Vec::new(alloc);
    for event in events {
        if matches!(
            event.action,
            Action::Happens(What::Call(OwnCall::MoveTo { .. }))
        ) {
            moments.push(event.moment)?;
        }
    }
    Ok(moments)
}
