//! Where the station is from which a frame came.

ghost use Rattle.std.specs.Prelude.{◌≡◌, ◌≤◌, ◌^◌};
ghost use Rattle.its_model.specs.Station.{StationModel};
ghost use Rattle.its_station.specs.State.{RepresentsStation};
ghost use Rattle.its_model.specs.Contention.{sender_place};

use its_gnvalue::{Mac, Place};
use its_loctable::LocationStore;
use its_station::Station;

/// Where the station is whose link address a frame has as its sender, by the table of the station
/// that received it: the position of the live entry of least address with that MID. `None` if there
/// is no such entry, or if its position is not accurate (PAI 0). It takes no memory. The time is at
/// most 2^62 ms and not before the last call.
pub fn sender_place<S: LocationStore>(station: &Station<S>, now: u64, sender: Mac) -> Option<Place>
    requires { now ≤ 2 ^ 62 }
    ensures { (s : StationModel) → RepresentsStation station.now s → s.clock ≤ now →
        result ≡ sender_place s now sender }
{
    match station.table().by_mid(now, sender) {
        Some(known) if known.vector.pai() => Some(known.vector.place()),
        _ => None,
    }
}
