//! A row of moves.

ghost use Rattle.std.specs.Prelude.{◌≡◌, ◌<◌, ◌≤◌, ◌^◌, pos, ℕ, ℤ};
ghost use Rattle.std.specs.Prelude.{IfSome, IfNone, IfOk, IfErr};
ghost use Rattle.std.specs.Option.{option_map};
ghost use Rattle.its_gnvalue.specs.Values.{IsSpeed};
ghost use Rattle.sim_moves.specs.Fields.{cut};
ghost use Rattle.sim_moves.specs.Rows.{AreNumbers, IsFirstWord, IsMoment, IsNumber};
ghost use Rattle.sim_moves.specs.Rows.{IsWordOfPlace, MayBeNumber, field_at, may_field};

use crate::columns::{Column, Columns, Notation};
use crate::decimal::{decimal, whole};
use crate::fault::Word;
use crate::fields::{Bound, within};
use its_gnvalue::Place;
use its_words::ids::is_id;

/// Where something moved.
#[derive(Debug, PartialEq, Eq, Drop)]
pub struct Row {
    /// The time, in milliseconds: its `at` minus the begin.
    pub moment: u64,
    /// Its id: 1 to 64 octets of UTF-8, without control characters.
    pub id: String,
    /// The new position.
    pub place: Place,
    /// The speed, in 0.01 m/s: -16384 to 16383.
    pub speed: i16,
    /// The heading, in 0.1 degree clockwise from north: below 3600.
    pub heading: u16,
}

/// Reads the number of a column, in this project's unit and in its range. `None` for other octets.
fn number(notation: Notation, column: Column, octets: &[u8]) -> Option<i128>
    ensures some { IfSome result (IsNumber notation column octets.now) }
    ensures none { IfNone result ((number : ℤ) → ¬ IsNumber notation column octets.now number) }
{
    let number = match notation {
        Notation::Own => whole(octets)?,
        Notation::Sumo => decimal(column.places(), octets)?,
    };
    if number < column.least() || number > column.most() {
        return None;
    }
    Some(number)
}

/// Reads a time that is not below this one.
fn moment_of(columns: &Columns, before: u64, octets: &[u8]) -> Option<u64>
    ensures some { IfSome result (IsMoment columns.now.notation before octets.now) }
    ensures none { IfNone result ((at : ℕ) → ¬ IsMoment columns.now.notation before octets.now at) }
{
    let at = number(columns.notation, Column::At, octets)? as u64;
    if at < before { None } else { Some(at) }
}

/// Reads the number of a column. If it isn't one in its range, returns this keyword.
fn required(columns: &Columns, column: Column, octets: &[u8], word: Word) -> Result<i128, Word>
    ensures ok { IfOk result (IsNumber columns.now.notation column octets.now) }
    ensures word { IfErr result (λ refused. refused ≡ word) }
    ensures err { IfErr result (λ _. (number : ℤ) →
        ¬ IsNumber columns.now.notation column octets.now number) }
{
    match number(columns.notation, column, octets) {
        Some(number) => Ok(number),
        None => Err(word),
    }
}

/// Reads the position of a row.
fn place_of(columns: &Columns, lat: &[u8], lon: &[u8]) -> Result<Place, Word>
    ensures ok { IfOk result (λ place.
        IsNumber columns.now.notation Column.Lat lat.now place.latitude
        × IsNumber columns.now.notation Column.Lon lon.now place.longitude) }
    ensures err { IfErr result (IsWordOfPlace columns.now.notation lat.now lon.now) }
{
    let lat = required(columns, Column::Lat, lat, Word::Lat)?;
    let lon = required(columns, Column::Lon, lon, Word::Lon)?;
    Ok(Place::within(lat as i32, lon as i32))
}

/// Reads the speed of a row. 0 if the column is absent.
fn speed_of(columns: &Columns, octets: Option<&[u8]>) -> Result<i16, Word>
    ensures ok { IfOk result (MayBeNumber columns.now.notation Column.Speed
        (option_map (λ octets. octets.now) octets.entry)) }
    ensures range { IfOk result IsSpeed }
    ensures word { IfErr result (λ refused. refused ≡ Word.Speed) }
    ensures err { IfErr result (λ _. (number : ℤ) →
        ¬ MayBeNumber columns.now.notation Column.Speed
        (option_map (λ octets. octets.now) octets.entry) number) }
{
    match octets {
        Some(octets) => Ok(required(columns, Column::Speed, octets, Word::Speed)? as i16),
        None => Ok(0),
    }
}

/// Reads the heading of a row, up to a whole turn. 0 if the column is absent.
fn turn_of(columns: &Columns, octets: Option<&[u8]>) -> Result<u16, Word>
    ensures ok { IfOk result (λ turn. MayBeNumber columns.now.notation Column.Heading
        (option_map (λ octets. octets.now) octets.entry) (pos turn)) }
    ensures word { IfErr result (λ refused. refused ≡ Word.Heading) }
    ensures err { IfErr result (λ _. (number : ℤ) →
        ¬ MayBeNumber columns.now.notation Column.Heading
        (option_map (λ octets. octets.now) octets.entry) number) }
{
    match octets {
        Some(octets) => Ok(required(columns, Column::Heading, octets, Word::Heading)? as u16),
        None => Ok(0),
    }
}

/// The numbers of a row.
#[derive(Clone, Copy, Debug, PartialEq, Eq)]
pub(crate) struct RowNumbers {
    /// The time, by the file's own clock.
    pub(crate) at: u64,
    /// The position.
    pub(crate) place: Place,
    /// The speed, in 0.01 m/s.
    pub(crate) speed: i16,
    /// The heading, in 0.1 degree.
    pub(crate) heading: u16,
}

/// Reads the numbers of a row with the fields within these bounds, whose time isn't below this one.
/// Otherwise returns the keyword of the first fault.
pub(crate) fn numbers_of(
    columns: &Columns,
    octets: &[u8],
    bounds: &[Bound],
    before: u64,
) -> Result<RowNumbers, Word>
    ensures ok { IfOk result (AreNumbers columns.now (cut octets.now bounds.now) before) }
    ensures ranges { IfOk result (λ numbers. IsSpeed numbers.speed
        × (numbers.heading < 3600) × (numbers.at ≤ 2 ^ 62)) }
    ensures err { IfErr result (IsFirstWord columns.now (cut octets.now bounds.now) before) }
{
    if bounds.len() != columns.count {
        return Err(Word::Fields);
    }
    let Some(at) = moment_of(columns, before, field(octets, bounds, columns.at)) else {
        return Err(Word::At);
    };
    if !is_id(field(octets, bounds, columns.id)) {
        return Err(Word::Id);
    }
    let place = place_of(
        columns,
        field(octets, bounds, columns.lat),
        field(octets, bounds, columns.lon),
    )?;
    let speed = speed_of(columns, optional_field(octets, bounds, columns.speed))?;
    let turn = turn_of(columns, optional_field(octets, bounds, columns.heading))?;
    Ok(RowNumbers {
        at,
        place,
        speed,
        heading: turn % 3600,
    })
}

/// Returns the octets of the field at a position.
pub(crate) fn field<'a>(octets: &'a [u8], bounds: &[Bound], place: usize) -> &'a [u8]
    ensures { result.now ≡ field_at (cut octets.now bounds.now) place }
{
    match bounds.get(place) {
        Some(bound) => within(octets, *bound),
        None => &[],
    }
}

/// Returns the octets of a field that may be absent.
fn optional_field<'a>(octets: &'a [u8], bounds: &[Bound], place: Option<usize>) -> Option<&'a [u8]>
    ensures { option_map (λ octets. octets.now) result
        ≡ may_field (cut octets.now bounds.now) place }
{
    match place {
        Some(place) => Some(field(octets, bounds, place)),
        None => None,
    }
}
