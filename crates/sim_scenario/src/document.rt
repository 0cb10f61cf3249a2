//! Reading a scenario from a document.

ghost use Rattle.std.specs.Prelude.{◌≡◌, ◌≤◌, IfOk, IfErr, vec_len};
ghost use Rattle.sim_scenario.specs.Documents.{IsToml, IsOfToml};
ghost use Rattle.sim_scenario.specs.Scenarios.{IsPlain, SaysScenario, usual_reading};
ghost use Rattle.sim_scenario.specs.declared.reading.AirTable.TheVariants as air_tables;
ghost use Rattle.toml.specs.Parse.{parse_document};
ghost use Rattle.toml.specs.View.{table_view};

use crate::fault::{DocumentFault, ScenarioFault};
use crate::position::TomlFault;
use crate::reading::Reading;
use crate::scenario::Scenario;
use crate::tables::Tables;
use std::alloc::Global;
use toml::Table;

impl Scenario {
    /// Reads a TOML document with the arrays of tables `station`, `event` and `expect` and the
    /// table `air`. With `air` it also reads the array of tables `every` and the table `moves`.
    /// Each may be missing. An unknown key in `air`, `every`, `moves` or `expect` is refused. Other
    /// unknown keys are ignored. More than `most_stations` stations are refused.
    ///
    /// Returns the first fault in this order: the document, its arrays `station` and `event`, the
    /// kinds of `air`, `every`, `moves` and `expect`, the number of stations, each station in turn,
    /// the air, each traffic in turn, the moves, each event in turn, each expectation in turn, two
    /// stations with the same MID.
    ///
    /// - `toml`: what is read is a TOML document: UTF-8 that the grammar of the kit reads.
    /// - `refused`: `not TOML` is returned only if it is not TOML, and not if memory runs out.
    /// - `says` (`SaysScenario`): the scenario is the one that the document says. It has the
    ///   stations in order, each as its keys say, with its presence at the start, the expectations,
    ///   and the timeline (`SayTimeline`). Without a radio model the timeline is each event, in
    ///   order. With a radio model it is the air, in which values that are set replace its own, the
    ///   traffic, and each event and leave, in order. With the moves of a file it is also how these
    ///   are read, and each event is for a station or an id.
    pub fn from_toml(
        alloc: Global,
        text: &[u8],
        most_stations: usize,
    ) -> Result<Scenario, ScenarioFault>
        ensures toml { IfOk result (λ _. IsToml text.now) }
        ensures refused { IfErr result (λ fault. IsOfToml fault → ¬ IsToml text.now) }
        ensures says { IfOk result (SaysScenario usual_reading text.now) }
        ensures few { IfOk result (λ scenario. vec_len scenario.stations ≤ most_stations) }
    {
        Scenario::read(alloc, text, most_stations, &Reading::default())
    }

    /// Reads a document as `from_toml` does, with these choices.
    ///
    /// The given values replace those of the radio model. If it is required, a document without one
    /// is refused, where the kind of `air` is checked. If it is ignored, so are `every`, `moves`
    /// and `expect`, whatever they are. A strict reading refuses each unknown key of the document,
    /// of its stations and of its events, last of all, in this order.
    #[tactic(auto, using(crate::proofs::Timelines::ignored_is_plain))]
    pub fn read(
        alloc: Global,
        text: &[u8],
        most_stations: usize,
        reading: &Reading,
    ) -> Result<Scenario, ScenarioFault>
        ensures toml { IfOk result (λ _. IsToml text.now) }
        ensures refused { IfErr result (λ fault. IsOfToml fault → ¬ IsToml text.now) }
        ensures says { IfOk result (SaysScenario reading.now text.now) }
        ensures few { IfOk result (λ scenario. vec_len scenario.stations ≤ most_stations) }
        ensures plain { reading.now.air ≡ air_tables.Ignored →
            IfOk result (λ scenario. IsPlain scenario.timeline) }
    {
        let document = document_of(alloc, text)?;
        let tables = Tables::of(alloc, &document, reading)?;
        let scenario = tables.read(alloc, most_stations)?;
        tables.refuse_unknown(alloc, &document, reading.strict)?;
        Ok(scenario)
    }
}

/// Parses a text as a TOML table.
fn document_of(alloc: Global, text: &[u8]) -> Result<Table, ScenarioFault>
    ensures toml { IfOk result (λ _. IsToml text.now) }
    ensures says { IfOk result (λ document.
        parse_document text.now ≡ Some (table_view document)) }
    ensures refused { IfErr result (λ fault. IsOfToml fault → ¬ IsToml text.now) }
{
    match toml::table_from_slice(alloc, text) {
        Ok(document) => Ok(document),
        Err(error) if error.is_memory() => Err(ScenarioFault::from(DocumentFault::OutOfMemory)),
        Err(error) => Err(ScenarioFault::NotToml(TomlFault::new(text, error))),
    }
}
