//! An index of the positions of a world's stations: rows of latitude, and in each row the order of
//! longitude. The receivers of a frame are in short stretches of a few rows.

ghost use Rattle.std.specs.Prelude.{◌≡◌, ◌≤◌, ◌<◌, ◌+◌, ◌-◌, ◌*◌, ◌/◌, ℕ, OnOk, IfOk, IfSome, List};
ghost use Rattle.std.specs.Prelude.{◌==◌, ◌++◌, IfNone, HoldsAt, filter, map, slice_get, length};
ghost use Rattle.std.specs.Prelude.{unsigned_abs, count_by, pos, ◌+ℤ◌};
ghost use Rattle.std.specs.List.{AllWithin, position, insert, remove};
ghost use Rattle.std.specs.List.Sorted.{IsNonDecreasingBy, IsPartitionPoint};
ghost use Rattle.its_station.specs.State.{StationState};
ghost use Rattle.its_world.specs.Steps.{AreSameBut};
ghost use Rattle.sim_queue.specs.Reach.{hearers, hears_there};
ghost use Rattle.sim_queue.specs.PlaceIndexes.{northing, easting, row_key, is_between, is_off};
ghost use Rattle.sim_queue.specs.PlaceIndexes.{Covers};
ghost use Rattle.sim_queue.specs.PlaceIndexes.{hears_from, count_at, AreStandingsOf};

use crate::places::reach::{find_hearers, is_within};
use its_geometry::Centre;
use its_gnvalue::Place;
use its_loctable::SortedTable;
use its_station::Station;
use std::alloc::{AllocError, Global};

/// The position of a station.
#[derive(Clone, Copy)]
pub struct Standing {
    /// The position.
    pub place: Place,
    /// The number of the station in the world, from 0.
    pub number: usize,
}

/// Returns how far north of the south pole a place is, in tenths of a microdegree: 0 to 1800000000.
fn northing(place: Place) -> u32
    ensures value { result ≡ northing place }
    ensures range { result ≤ 1800000000 }
{
    (place.lat() + 900_000_000).unsigned_abs()
}

/// Returns how far east of the antimeridian a place is, in tenths of a microdegree: 0 to
/// 3600000000.
fn easting(place: Place) -> u64
    ensures value { result ≡ easting place }
    ensures range { result ≤ 3600000000 }
    ensures longitude { unsigned_abs place.longitude ≤ 1800000000 }
{
    (place.lon() as i64 + 1_800_000_000).unsigned_abs()
}

/// Returns how many rows are south of this northing. The height of a row, in tenths of a
/// microdegree, is one more than the range in centimetres: a tenth of a microdegree is longer than
/// a centimetre.
fn row_at(range: u16, northing: u32) -> u64
    ensures value { result ≡ northing / (100 * range + 1) }
    ensures bound { result ≤ northing }
{
    u64::from(northing / (100 * u32::from(range) + 1))
}

/// Returns the key of a row and an easting in the order of rows and then of longitude.
fn key_at(row: u64, easting: u64) -> u64
    requires row { row ≤ 4000000000 }
    requires easting { easting ≤ 3600000000 }
    ensures { result ≡ row * 4294967296 + easting }
{
    row * 4_294_967_296 + easting
}

/// Returns the key of a place in that order.
fn row_key(range: u16, place: Place) -> u64
    ensures value { result ≡ row_key range place }
    ensures longitude { unsigned_abs place.longitude ≤ 1800000000 }
{
    key_at(row_at(range, northing(place)), easting(place))
}

/// A range of longitudes, each as its distance east of the antimeridian.
#[derive(Clone, Copy)]
struct Stretch {
    west: u64,
    east: u64,
}

/// Finds longitudes between which all places in range of a place are, if there are such.
fn find_stretch(range: u16, place: Place) -> Option<Stretch>
    ensures covers { IfSome result (λ stretch. Covers range place stretch.west stretch.east) }
    ensures bound { IfSome result (λ stretch.
        (stretch.west ≤ 3600000000) × (stretch.east ≤ 3600000000)) }
{
    let centre = Centre::new(place);
    let reach = 100 * u32::from(range);
    for eighths in 8..65 {
        let found = stretch_of(range, &centre, place, reach / 8 * eighths + 1);
        if found.is_some() {
            return found;
        }
    }
    None
}

/// Returns the longitudes at most this far away, if no place in range is farther away. `None` if
/// one may be, or if they cross the antimeridian.
fn stretch_of(range: u16, centre: &Centre, place: Place, width: u32) -> Option<Stretch>
    requires centre { centre.now.place ≡ place }
    requires width { width ≤ 60000000 }
    ensures covers { IfSome result (λ stretch. Covers range place stretch.west stretch.east) }
    ensures bound { IfSome result (λ stretch.
        (stretch.west ≤ 3600000000) × (stretch.east ≤ 3600000000)) }
{
    let west = place_west(place, width)?;
    let east = place_east(place, width)?;
    if is_within(range, centre, east) {
        return None;
    }
    Some(Stretch {
        west: easting(west),
        east: easting(east),
    })
}

/// Returns the place this far to the west, if that isn't past the antimeridian.
fn place_west(place: Place, width: u32) -> Option<Place>
    requires { width ≤ 60000000 }
    ensures place { IfSome result (λ west. (west.latitude ≡ place.latitude)
        × (place.longitude ≡ west.longitude +ℤ pos width)) }
    ensures longitude { unsigned_abs place.longitude ≤ 1800000000 }
{
    Place::new(place.lat(), place.lon() - width as i32).ok()
}

/// Returns the place this far to the east, if that isn't past the antimeridian.
fn place_east(place: Place, width: u32) -> Option<Place>
    requires { width ≤ 60000000 }
    ensures { IfSome result (λ east. (east.latitude ≡ place.latitude)
        × (east.longitude ≡ place.longitude +ℤ pos width)) }
{
    Place::new(place.lat(), place.lon() + width as i32).ok()
}

/// The positions of all stations of a world, in the order of rows and then of longitude.
#[derive(Drop)]
pub struct PlaceIndex {
    /// The range that sets the height of a row, in metres.
    range: u16,
    order: Vec<Standing>,
    /// The index that each station had when it was last put there, by its number. It may have
    /// changed since. The search for the station begins there.
    hints: Vec<usize>,
    ghost rising: { IsNonDecreasingBy (λ s. row_key range s.place) order.items },
    ghost longitudes: { count_by is_off order.items ≡ 0 },
}

impl PlaceIndex {
    /// Returns the index of these stations. `range`, in metres, sets the height of a row: a search
    /// with this range looks at few rows. Allocates memory for all stations.
    ///
    /// - its clause: each station is in the index once, with its number and its position, and
    ///   nothing else is (`AreStandingsOf`).
    pub fn of(
        alloc: Global,
        range: u16,
        stations: &[Station<SortedTable>],
    ) -> Result<PlaceIndex, AllocError>
        ensures { IfOk result (λ standings. AreStandingsOf stations.now standings.order.items) }
    {
        let mut order = Vec::with_capacity(alloc, stations.len())?;
        for (number, station) in stations.iter().enumerate() {
            let place = station.vector().place();
            order.push(stand(number, place))?;
        }
        order.sort_unstable_by_key(|standing| row_key(range, standing.place));
        let mut hints = Vec::from_elem(alloc, 0, stations.len())?;
        note_places(&order, &mut hints, 0, order.len());
        Ok(PlaceIndex {
            range,
            order,
            hints,
        })
    }

    /// Returns the entries whose keys are from `low` to `high`.
    fn between(&self, low: u64, high: u64) -> &[Standing]
        ensures { result.now ≡ filter (is_between self.now.range low high) self.now.order.items }
    {
        let range = self.range;
        let below = self
            .order
            .partition_point(|standing| row_key(range, standing.place) < low);
        let (_, above) = self.order.split_at(below);
        let within = above.partition_point(|standing| row_key(range, standing.place) <= high);
        above.split_at(within).0
    }

    /// Finds the stations that receive what one of them sends, as the function `find_hearers` does.
    /// If few are near the sender, it looks only at these.
    ///
    /// - its clause: the list of `find_hearers`, if the index is of these stations.
    pub fn find_hearers(
        &self,
        range: u16,
        stations: &[Station<SortedTable>],
        giver: usize,
        place: Place,
        found: &mut Vec<usize>,
    ) -> Result<(), AllocError>
        requires { AreStandingsOf stations.now self.now.order.items }
        ensures { OnOk result (found.new.items ≡ hearers range stations.now giver place) }
    {
        let Some(stretch) = find_stretch(range, place) else {
            return find_hearers(range, stations, giver, place, found);
        };
        self.gather_rows(range, giver, place, stretch, found)?;
        if found.len() > stations.len() / FEW {
            return find_hearers(range, stations, giver, place, found);
        }
        found.sort_unstable();
        Ok(())
    }

    /// Adds the numbers of the stations that receive what a station sends at this place, in no
    /// order. Looks only at this stretch of each row in range.
    fn gather_rows(
        &self,
        range: u16,
        giver: usize,
        place: Place,
        stretch: Stretch,
        found: &mut Vec<usize>,
    ) -> Result<(), AllocError>
        requires covers { Covers range place stretch.west stretch.east }
        requires west { stretch.west ≤ 3600000000 }
        requires east { stretch.east ≤ 3600000000 }
        ensures { OnOk result ((number : ℕ) → count_by (λ n. n == number) found.new.items
            ≡ count_at (hears_from range giver place number) number self.now.order.items) }
    {
        found.clear();
        let centre = Centre::new(place);
        let north = northing(place);
        let reach = 100 * u32::from(range);
        let first = row_at(self.range, north.saturating_sub(reach));
        let last = row_at(self.range, north + reach);
        for row in first..last + 1 {
            let near = self.between(key_at(row, stretch.west), key_at(row, stretch.east));
            gather(range, near, giver, &centre, found)?;
        }
        Ok(())
    }

    /// Adds the station of this number at this place.
    pub fn add_station(&mut self, number: usize, place: Place) -> Result<(), AllocError>
        ensures { (stations new : List StationState) →
            AreStandingsOf stations self.old.order.items →
            number ≡ length stations → length new ≡ length stations + 1 →
            ((n : ℕ) → n < length stations → slice_get new n ≡ slice_get stations n) →
            IfSome (slice_get new number) (λ st. st.vector.place ≡ place) →
            OnOk result (AreStandingsOf new self.new.order.items) }
    {
        let range = self.range;
        let key = row_key(range, place);
        let to = self
            .order
            .partition_point(|other| row_key(range, other.place) <= key);
        let standing = Standing { place, number };
        self.hints.push(to)?;
        self.order.insert(to, standing)?;
        Ok(())
    }

    /// Moves the station of this number, which has to be in the index, to a new place. The search
    /// begins at the place where it stood, if that is known.
    pub fn move_station(&mut self, number: usize, stood: Option<Place>, place: Place)
        ensures { (stations new : List StationState) →
            AreStandingsOf stations self.old.order.items →
            AreSameBut number stations new →
            IfSome (slice_get new number) (λ st. st.vector.place ≡ place) →
            AreStandingsOf new self.new.order.items }
    {
        let range = self.range;
        let Some(from) = find_station(range, &self.order, &self.hints, number, stood) else {
            return;
        };
        let end = end_for(range, &self.order, from, row_key(range, place));
        // Without the station the end is one lower, if the station was before it.
        let to = if from < end { end - 1 } else { end };
        replace_at(&mut self.order, from, to, Standing { place, number });
        let past = from.max(to).saturating_add(1);
        note_places(&self.order, &mut self.hints, from.min(to), past);
    }
}

/// Returns the entry of a station. Its longitude is in range.
fn stand(number: usize, place: Place) -> Standing
    ensures standing { result ≡ record { place = place; number = number } }
    ensures longitude { unsigned_abs place.longitude ≤ 1800000000 }
{
    // For the proof alone.
    let _ = easting(place);
    Standing { place, number }
}

/// Writes down the indexes of the entries of this range of indexes.
fn note_places(order: &[Standing], hints: &mut Vec<usize>, first: usize, past: usize) {
    for at in first..past {
        if let Some(standing) = order.get(at) {
            if let Some(hint) = hints.get_mut(standing.number) {
                *hint = at;
            }
        }
    }
}

/// Returns an index that splits the entries by a key: those before it come no later than the key,
/// those from it on no earlier. The search begins at another index, and is short if a station there
/// moves a little.
fn end_for(range: u16, order: &[Standing], from: usize, key: u64) -> usize
    requires rising { IsNonDecreasingBy (λ s. row_key range s.place) order.now }
    requires from { from < length order.now }
    ensures bound { result ≤ length order.now }
    ensures point { IsPartitionPoint (λ s. row_key range s.place ≤ key)
        (λ s. key ≤ row_key range s.place) order.now result }
{
    let end = end_behind(range, order, from, key);
    if from < end {
        end
    } else {
        end_before(range, order, from, key)
    }
}

/// Returns the first index, from this one on, at which the entry comes no earlier than a key.
fn end_behind(range: u16, order: &[Standing], from: usize, key: u64) -> usize
    requires from { from < length order.now }
    ensures bound { (from ≤ result) × (result ≤ length order.now) }
    ensures passed { AllWithin (λ s. row_key range s.place ≤ key) order.now from result }
    ensures stops { result < length order.now →
        HoldsAt (λ s. key ≤ row_key range s.place) order.now result }
{
    for end in from..order.len() {
        if key <= row_key(range, order[end].place) {
            return end;
        }
    }
    order.len()
}

/// Returns the last index, up to this one, before which the entry comes no later than a key.
fn end_before(range: u16, order: &[Standing], from: usize, key: u64) -> usize
    requires from { from < length order.now }
    ensures bound { result ≤ from }
    ensures passed { AllWithin (λ s. key ≤ row_key range s.place) order.now result from }
    ensures stops { 0 < result →
        HoldsAt (λ s. row_key range s.place ≤ key) order.now (result - 1) }
{
    for passed in 0..from {
        let end = from - passed;
        if row_key(range, order[end - 1].place) <= key {
            return end;
        }
    }
    0
}

/// Removes the entry at one index, and inserts this one at an index of those that are left. Only
/// the entries between the two move, by one. Allocates nothing.
fn replace_at(order: &mut Vec<Standing>, from: usize, to: usize, standing: Standing)
    requires from { from < length order.old.items }
    requires to { to < length order.old.items }
    ensures { order.new.items ≡ insert (remove order.old.items from) to standing }
{
    if from < to {
        order.copy_within(from + 1..to + 1, from);
    } else {
        order.copy_within(to..from, to + 1);
    }
    order[to] = standing;
}

/// Returns an index of the entry of a station, by its number. Looks first at the index that its
/// hint has and then, if its place is known, at the first entry that comes no earlier than that
/// place, and after it.
fn find_station(
    range: u16,
    order: &[Standing],
    hints: &[usize],
    number: usize,
    stood: Option<Place>,
) -> Option<usize>
    ensures bound { IfSome result (λ at. at < length order.now) }
    ensures found { IfSome result (HoldsAt (λ s. s.number ≡ number) order.now) }
    ensures none { IfNone result (position (λ s. s.number == number) order.now ≡ None) }
{
    let hinted = find_hinted(order, hints, number);
    if hinted.is_some() {
        return hinted;
    }
    if let Some(place) = stood {
        let found = find_from(range, order, number, place);
        if found.is_some() {
            return found;
        }
    }
    place_in(order, number)
}

/// Returns the index that the hint of a number has, if the entry of the number is there.
fn find_hinted(order: &[Standing], hints: &[usize], number: usize) -> Option<usize>
    ensures bound { IfSome result (λ at. at < length order.now) }
    ensures found { IfSome result (HoldsAt (λ s. s.number ≡ number) order.now) }
{
    let at = *hints.get(number)?;
    if at < order.len() && order[at].number == number {
        Some(at)
    } else {
        None
    }
}

/// Returns an index of the entry of a station, by its number. Looks from the first entry on that
/// comes no earlier than a place.
fn find_from(range: u16, order: &[Standing], number: usize, place: Place) -> Option<usize>
    ensures bound { IfSome result (λ at. at < length order.now) }
    ensures found { IfSome result (HoldsAt (λ s. s.number ≡ number) order.now) }
{
    let key = row_key(range, place);
    let sooner = order.partition_point(|standing| row_key(range, standing.place) < key);
    let (_, rest) = order.split_at(sooner);
    let at = place_in(rest, number)?;
    Some(sooner + at)
}

/// Returns the index of the entry of a station, by its number.
fn place_in(order: &[Standing], number: usize) -> Option<usize>
    ensures { result ≡ position (λ s. s.number == number) order.now }
{
    order.iter().position(|standing| standing.number == number)
}

/// At most one station in this many counts as few: sorting these is cheaper than looking at all.
const FEW: usize = 2;

/// Adds the numbers of those entries whose stations receive what a station sends at this centre, in
/// the order of the entries.
fn gather(
    range: u16,
    near: &[Standing],
    giver: usize,
    centre: &Centre,
    found: &mut Vec<usize>,
) -> Result<(), AllocError>
    ensures { OnOk result (found.new.items ≡ found.old.items
        ++ map (λ s. s.number) (filter (hears_there range giver centre.now.place) near.now)) }
{
    for standing in near {
        if standing.number != giver && is_within(range, centre, standing.place) {
            found.push(standing.number)?;
        }
    }
    Ok(())
}
