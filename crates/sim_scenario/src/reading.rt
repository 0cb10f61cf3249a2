//! How a document is read as a scenario.

ghost use Rattle.std.specs.Prelude.{◌≡◌};
ghost use Rattle.sim_scenario.specs.Scenarios.{reads_air};

use sim_settings::AirSettings;

/// How a document is read as a scenario. `default` is how `from_toml` reads it.
#[derive(Clone, Copy, Debug, Default, PartialEq, Eq)]
pub struct Reading {
    /// Whether an unknown key is refused, in any table.
    pub strict: bool,
    /// What is done with the table `air`.
    pub air: AirTable,
    /// Whether it is run with the moves of a file, in its radio model. An event may then have `id`,
    /// and its `station` is ignored. Without `id`, `station` is one of the scenario's own.
    /// `deliver` is not allowed.
    pub moves: bool,
    /// Values that replace those of the air.
    pub settings: AirSettings,
}

/// What is done with the table `air` of a document.
#[derive(Clone, Copy, Debug, Default, PartialEq, Eq)]
pub enum AirTable {
    /// It is read if there is one.
    #[default]
    Optional,
    /// A document without one is refused.
    Required,
    /// It is ignored, and so are `every`, `moves` and `expect`.
    Ignored,
}

impl AirTable {
    /// Whether the table is read.
    pub(crate) fn is_read(self) -> bool
        ensures { result ≡ reads_air self }
    {
        match self {
            AirTable::Optional | AirTable::Required => true,
            AirTable::Ignored => false,
        }
    }
}
