//! Which stations receive a frame.

ghost use Rattle.std.specs.Prelude.{◌≡◌, ◌+◌, ◌*◌, ◌≤◌, OnOk, [], IsTrue};
ghost use Rattle.sim_air_model.specs.Range.{is_within};
ghost use Rattle.sim_queue.specs.Reach.{hearers, hears};

use its_geometry::Centre;
use its_gnvalue::Place;
use its_loctable::SortedTable;
use its_station::Station;
use std::alloc::AllocError;

/// Finds the stations that receive what station `giver` sends from this position: the numbers of
/// all others at most `range` metres away, in order, by their last known positions. They replace
/// the content of `found`.
pub fn find_hearers(
    range: u16,
    stations: &[Station<SortedTable>],
    giver: usize,
    place: Place,
    found: &mut Vec<usize>,
) -> Result<(), AllocError>
    ensures { OnOk result (found.new.items ≡ hearers range stations.now giver place) }
{
    let centre = Centre::new(place);
    found.clear();
    for (number, station) in stations.iter().enumerate() {
        if hears(range, &centre, giver, number, station) {
            found.push(number)?;
        }
    }
    Ok(())
}

/// Whether the station with this number receives what another one sends from this centre.
fn hears(
    range: u16,
    centre: &Centre,
    giver: usize,
    number: usize,
    station: &Station<SortedTable>,
) -> bool
    ensures { result ≡ hears range giver centre.now.place number station.now }
{
    number != giver && is_within(range, centre, station.vector().place())
}

/// Whether a position is at most `range` metres from a centre.
pub fn is_within(range: u16, centre: &Centre, place: Place) -> bool
    ensures { result ≡ is_within range centre.now.place place }
{
    let reach = 100 * u64::from(range);
    centre.squared_distance(place) <= reach * reach
}
