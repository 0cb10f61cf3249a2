//! The stations that a world begins with.

ghost use Rattle.std.specs.Prelude.{All, map, IfOk};
ghost use Rattle.its_model.specs.World.{opening, station_of};
ghost use Rattle.its_station.specs.State.{RepresentsStation};
ghost use Rattle.its_world.specs.State.{RepresentStations};
ghost use Rattle.its_world.specs.Events.{IsConfig, config_of};

use crate::config::Config;
use its_gnvalue::NoMemory;
use its_loctable::SortedTable;
use its_station::Station;
use std::alloc::Global;

/// Makes stations of these configs, in their order. Allocates all memory of their location tables.
pub fn stations_of(alloc: Global, configs: &[Config]) -> Result<Vec<Station<SortedTable>>, NoMemory>
    requires { All IsConfig configs.now }
    ensures { IfOk result (λ stations.
        RepresentStations stations.items (opening (map config_of configs.now)).stations) }
{
    let mut stations = Vec::with_capacity(alloc, configs.len())?;
    for config in configs {
        let station = begin_station(alloc, config)?;
        stations.push(station)?;
    }
    Ok(stations)
}

/// Makes a station of this config. Allocates all memory of its location table.
pub(crate) fn begin_station(
    alloc: Global,
    config: &Config,
) -> Result<Station<SortedTable>, NoMemory>
    requires { IsConfig config.now }
    ensures { IfOk result (λ station. RepresentsStation station (station_of (config_of config.now))) }
{
    let begun = Station::new(
        alloc,
        config.address,
        config.place,
        config.capacity,
        config.remember,
    );
    begun.map_err(|_| NoMemory)
}
