//! The lines of a simulation, as JSON.

ghost use Rattle.std.specs.Prelude.{◌≡◌, IfOk, false};

use crate::VERSION;
use crate::entry::{EntryKeys, entry_keys};
use crate::fault::SimulationFault;
use crate::note::{Note, NoteLine};
use crate::record::{EventLine, EventRecord};
use crate::sink::EventSink;
use its_gnvalue::{GnAddress, Place};
use its_words::json_lines::{Digits, JsonLine};
use its_world::{Config, Entry, World};
use serde::{Described, Serialize, Serializer};
use sim_settings::Air;
use std::alloc::{AllocError, Global};
use std::io::Write;

/// Writes one object per entry: `event`, `moment`, `station` and `do` of the event, `frame`, `lat`
/// and `lon` if the event has them, the keys of its entry from `result` on, and last `octets`, if a
/// frame was sent.
#[derive(Drop)]
pub struct JsonLines<'a, W> {
    line: JsonLine,
    out: &'a mut W,
    notes: bool,
    /// Whether stations that rows make contend. `None` if no station of the run contends.
    rows_contend: Option<bool>,
}

impl<'a, W: Write> JsonLines<'a, W> {
    /// Returns lines of which none is written. It allocates a buffer for one line. Notes have no
    /// lines.
    pub fn new(alloc: Global, out: &'a mut W) -> Result<JsonLines<'a, W>, AllocError>
        ensures { IfOk result (λ lines. lines.notes ≡ false) }
    {
        Ok(JsonLines {
            line: JsonLine::new(alloc)?,
            out,
            notes: false,
            rows_contend: None,
        })
    }

    /// Returns these lines with the objects of notes among them, for example
    /// `{"note":"came","moment":500,"station":1}`, if `notes` is set.
    pub fn noting(self, notes: bool) -> JsonLines<'a, W>
        ensures { result ≡ record self.entry { notes = notes } }
    {
        JsonLines { notes, ..self }
    }

    /// Writes the line of the stations, which comes before those of the events:
    /// `{"stations":[..]}`, with `address`, `lat` and `lon` of each.
    ///
    /// `OutOfMemory` if an allocation failed, `Output` if a write did.
    pub fn stations(&mut self, configs: &[Config]) -> Result<(), SimulationFault> {
        let stations = StationList {
            configs,
            contend: None,
        };
        self.write(&StationsLine { stations })
    }

    /// Writes the line of a run with a radio model: its stations, the model and the version of the
    /// program, as `{"stations":[..],"air":{..},"version":".."}`. The model has `range`, `delay`,
    /// `loss`, `seed`, `beacons` and `until`, the last millisecond of the run, which is null if it
    /// isn't known yet. If any station contends, `contention` and its rule follow, and each station
    /// has `contention`. The argument `contention` says which stations contend, and whether those
    /// of rows do.
    ///
    /// `OutOfMemory` if an allocation failed, `Output` if a write did.
    pub fn stations_in_air(
        &mut self,
        configs: &[Config],
        air: &Air,
        until: Option<u64>,
        contention: Option<WhoContends<'_>>,
    ) -> Result<(), SimulationFault> {
        self.rows_contend = contention.map(|who| who.rows);
        let contend = contention.map(|who| who.stations);
        let stations = StationList { configs, contend };
        let air = AirText::of(air, until, contention.is_some());
        self.write(&AirLine {
            stations,
            air,
            version: VERSION,
        })
    }

    /// Writes the line of a call that is not an event of a world: `moment`, `station`, `do`, which
    /// is this keyword, and the keys of its entry from `result` on.
    ///
    /// `OutOfMemory` if an allocation failed, `Output` if a write did.
    pub fn call(
        &mut self,
        moment: u64,
        station: usize,
        word: &'static str,
        entry: &Entry,
    ) -> Result<(), SimulationFault> {
        self.write(&CallLine {
            moment,
            station,
            word,
            told: entry_keys(entry),
        })
    }

    /// Writes the line of a station that was made in a run.
    fn made(&mut self, world: &World, station: usize, id: &str) -> Result<(), SimulationFault> {
        let Some(made) = world.station(station) else {
            return Ok(());
        };
        let vector = made.vector();
        let at = StationText::new(vector.address(), vector.place(), self.rows_contend);
        self.write(&MadeLine { station, id, at })
    }

    fn write<T: Serialize>(&mut self, value: &T) -> Result<(), SimulationFault> {
        let line = self.line.of(value)?;
        self.out.write_all(line)?;
        Ok(())
    }
}

impl<W: Write> EventSink for JsonLines<'_, W> {
    // What a text writes isn't said by contracts.
    ghost Took = { λ _ _ _. Unit {0} };

    fn put(&mut self, _world: &World, done: &EventRecord<'_>) -> Result<(), SimulationFault> {
        self.write(&EventLine::of(done))
    }

    fn note(&mut self, world: &World, moment: u64, note: &Note<'_>) -> Result<(), SimulationFault> {
        if let Note::Made { station, id } = *note {
            return self.made(world, station, id);
        }
        match NoteLine::of(moment, note) {
            Some(line) if self.notes => self.write(&line),
            _ => Ok(()),
        }
    }
}

/// The line of the stations.
#[derive(Clone, Copy, Serialize)]
struct StationsLine<'a> {
    stations: StationList<'a>,
}

/// The stations of a run, its radio model and the version of the program.
#[derive(Clone, Copy, Serialize)]
struct AirLine<'a> {
    stations: StationList<'a>,
    air: AirText,
    version: &'static str,
}

/// The keys of a radio model.
#[derive(Clone, Copy, Serialize)]
struct AirText {
    range: u16,
    delay: u16,
    loss: u8,
    seed: u64,
    beacons: bool,
    until: Option<u64>,
    #[serde(flatten)]
    contention: Option<ContentionKeys>,
}

/// The keys of contention, if any station contends.
#[derive(Clone, Copy, Serialize)]
struct ContentionKeys {
    contention: bool,
    contention_max: u16,
    contention_min: u16,
    contention_range: u16,
    contention_copies: u8,
}

impl ContentionKeys {
    fn of(air: &Air) -> ContentionKeys {
        ContentionKeys {
            contention: air.contends,
            contention_max: air.rule.max_wait(),
            contention_min: air.rule.min_wait(),
            contention_range: air.rule.range(),
            contention_copies: air.rule.copies(),
        }
    }
}

impl AirText {
    fn of(air: &Air, until: Option<u64>, has_contention: bool) -> AirText {
        AirText {
            range: air.range,
            delay: air.delay,
            loss: air.loss,
            seed: air.seed,
            beacons: air.beacons,
            until,
            contention: has_contention.then(|| ContentionKeys::of(air)),
        }
    }
}

/// The line of a call.
#[derive(Clone, Copy, Serialize)]
struct CallLine<'a> {
    moment: u64,
    station: usize,
    #[serde(rename = "do")]
    word: &'static str,
    #[serde(flatten)]
    told: EntryKeys<'a>,
}

/// The line of a station that was made in a run.
#[derive(Clone, Copy, Serialize)]
struct MadeLine<'a> {
    station: usize,
    id: &'a str,
    #[serde(flatten)]
    at: StationText,
}

/// Which stations contend, in a run in which any does.
#[derive(Clone, Copy, Debug)]
pub struct WhoContends<'a> {
    /// Whether each station of the scenario contends, in order.
    pub stations: &'a [bool],
    /// Whether those that rows make do.
    pub rows: bool,
}

/// The stations as an array. In a run in which any station contends, each has whether it does.
#[derive(Clone, Copy)]
struct StationList<'a> {
    configs: &'a [Config],
    contend: Option<&'a [bool]>,
}

impl Described for StationList<'_> {}

impl Serialize for StationList<'_> {
    fn serialize<S: Serializer>(&self, out: &mut S) -> Result<(), S::Error> {
        out.begin_seq(Some(self.configs.len()))?;
        for (number, config) in self.configs.iter().enumerate() {
            StationText::of(config, self.contends(number)).serialize(out)?;
        }
        out.end_seq()
    }
}

impl StationList<'_> {
    /// Returns whether the station with this number contends. `None` if no station of the run does.
    fn contends(&self, number: usize) -> Option<bool> {
        self.contend?.get(number).copied()
    }
}

/// The keys of a station.
#[derive(Clone, Copy, Serialize)]
struct StationText {
    address: Digits<8>,
    lat: i32,
    lon: i32,
    #[serde(skip_serializing_if = "Option::is_none")]
    contention: Option<bool>,
}

impl StationText {
    fn of(config: &Config, contention: Option<bool>) -> StationText {
        StationText::new(config.address, config.place, contention)
    }

    fn new(address: GnAddress, place: Place, contention: Option<bool>) -> StationText {
        StationText {
            address: Digits(address.as_u64().to_be_bytes()),
            lat: place.lat(),
            lon: place.lon(),
            contention,
        }
    }
}
