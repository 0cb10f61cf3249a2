//! The columns that a file of moves names in its first line.

ghost use Rattle.std.specs.Prelude.{◌≡◌, ◌≤◌, ◌↔◌, ℕ, IsTrue, IfSome, IfNone, Option};
ghost use Rattle.sim_moves.specs.Columns.{word_of, places_of, least_of, most_of, IsFound};
ghost use Rattle.sim_moves.specs.Columns.{HasNone, HasOnce, MayStand, HasNoName, IsHeader};
ghost use Rattle.sim_moves.specs.Columns.{IsHeaderIn, texts};
ghost use Rattle.sim_moves.specs.declared.columns.Columns.{Columns};

use crate::fault::Word;

/// A column that has a meaning. Others are ignored.
#[derive(Clone, Copy, Debug, PartialEq, Eq)]
pub enum Column {
    /// The time, in milliseconds: 0 to 2^62.
    At,
    /// The id of what moves.
    Id,
    /// The latitude, in tenths of a microdegree.
    Lat,
    /// The longitude, in tenths of a microdegree.
    Lon,
    /// The speed, in 0.01 m/s: -16384 to 16383.
    Speed,
    /// The heading, in 0.1 degree: 0 to 3600, where 3600 is 0.
    Heading,
}

/// The notation of the columns.
#[derive(Clone, Copy, Debug, PartialEq, Eq)]
pub enum Notation {
    /// This project's own: whole numbers of its units.
    Own,
    /// Those of `xml2csv.py` of SUMO's floating car data: decimals of seconds, degrees and m/s.
    Sumo,
}

/// The positions of the columns in each row, from 0.
#[derive(Clone, Copy, Debug, PartialEq, Eq)]
pub struct Columns {
    /// Their notation.
    pub notation: Notation,
    /// How many fields there are, ignored ones included.
    pub count: usize,
    /// The position of the time.
    pub at: usize,
    /// The position of the id.
    pub id: usize,
    /// The position of the latitude.
    pub lat: usize,
    /// The position of the longitude.
    pub lon: usize,
    /// The position of the speed, which may be absent.
    pub speed: Option<usize>,
    /// The position of the heading, which may be absent.
    pub heading: Option<usize>,
}

impl Column {
    /// Returns its name.
    pub fn word(self, notation: Notation) -> &'static str
        ensures { result.now ≡ word_of notation self }
    {
        match (notation, self) {
            (Notation::Own, Column::At) => "at",
            (Notation::Own, Column::Id) => "id",
            (Notation::Own, Column::Lat) => "lat",
            (Notation::Own, Column::Lon) => "lon",
            (Notation::Own, Column::Speed) => "speed",
            (Notation::Own, Column::Heading) => "heading",
            (Notation::Sumo, Column::At) => "timestep_time",
            (Notation::Sumo, Column::Id) => "vehicle_id",
            (Notation::Sumo, Column::Lat) => "vehicle_y",
            (Notation::Sumo, Column::Lon) => "vehicle_x",
            (Notation::Sumo, Column::Speed) => "vehicle_speed",
            (Notation::Sumo, Column::Heading) => "vehicle_angle",
        }
    }

    /// Returns how many decimal places of SUMO's unit this project's unit has.
    pub(crate) fn places(self) -> u32
        ensures value { result ≡ places_of self }
        ensures few { places_of self ≤ 7 }
    {
        match self {
            Column::At => 3,
            Column::Id => 0,
            Column::Lat | Column::Lon => 7,
            Column::Speed => 2,
            Column::Heading => 1,
        }
    }

    /// Returns the least number that it may have.
    pub(crate) fn least(self) -> i128
        ensures { result ≡ least_of self }
    {
        match self {
            Column::At | Column::Id | Column::Heading => 0,
            Column::Lat => -900_000_000,
            Column::Lon => -1_800_000_000,
            Column::Speed => -16384,
        }
    }

    /// Returns the greatest number that it may have.
    pub(crate) fn most(self) -> i128
        ensures { result ≡ most_of self }
    {
        match self {
            Column::At => 4_611_686_018_427_387_904,
            Column::Id => 0,
            Column::Lat => 900_000_000,
            Column::Lon => 1_800_000_000,
            Column::Speed => 16383,
            Column::Heading => 3600,
        }
    }
}

impl Columns {
    /// Returns the position of the column that a keyword is about. `None` if it is about no column.
    pub(crate) fn place_of(&self, word: Word) -> Option<usize> {
        match word {
            Word::At => Some(self.at),
            Word::Id => Some(self.id),
            Word::Lat => Some(self.lat),
            Word::Lon => Some(self.lon),
            Word::Speed => self.speed,
            Word::Heading => self.heading,
            Word::Length | Word::Header(_) | Word::Fields | Word::TooManyStations => None,
        }
    }
}

/// How often a name occurs among others.
#[derive(Clone, Copy, Debug, PartialEq, Eq)]
pub(crate) enum Occurrence {
    /// Nowhere.
    Nowhere,
    /// Only at this position.
    Once(usize),
    /// Twice, or more often.
    Twice,
}

/// Finds how often a column's name occurs among these.
pub(crate) fn find(names: &[Vec<u8>], word: &str) -> Occurrence
    ensures { IsFound (texts names.now) word.now result }
{
    let mut found = Occurrence::Nowhere;
    for (place, name) in names.iter().enumerate() {
        if is_named(name, word) {
            match found {
                Occurrence::Nowhere => found = Occurrence::Once(place),
                Occurrence::Once(_) | Occurrence::Twice => return Occurrence::Twice,
            }
        }
    }
    found
}

/// Whether a name is this.
fn is_named(name: &[u8], word: &str) -> bool
    ensures { IsTrue result ↔ (name.now ≡ word.now) }
{
    name == word.as_bytes()
}

/// Returns the position of a column that has to be there. `None` if it is missing or occurs twice.
fn required(names: &[Vec<u8>], notation: Notation, column: Column) -> Option<usize>
    ensures some { IfSome result (HasOnce (texts names.now) (word_of notation column)) }
    ensures none { IfNone result ((place : ℕ) →
        ¬ HasOnce (texts names.now) (word_of notation column) place) }
{
    match find(names, column.word(notation)) {
        Occurrence::Once(place) => Some(place),
        Occurrence::Nowhere | Occurrence::Twice => None,
    }
}

/// Returns the position of a column that may be absent. `None` if it occurs twice.
fn optional(names: &[Vec<u8>], notation: Notation, column: Column) -> Option<Option<usize>>
    ensures some { IfSome result (MayStand (texts names.now) (word_of notation column)) }
    ensures none { IfNone result ((place : Option ℕ) →
        ¬ MayStand (texts names.now) (word_of notation column) place) }
{
    match find(names, column.word(notation)) {
        Occurrence::Once(place) => Some(Some(place)),
        Occurrence::Nowhere => Some(None),
        Occurrence::Twice => None,
    }
}

/// Whether no column of this notation is named.
pub(crate) fn names_none(names: &[Vec<u8>], notation: Notation) -> bool
    ensures { IsTrue result ↔ HasNoName (texts names.now) notation }
{
    is_absent(names, notation, Column::At)
        && is_absent(names, notation, Column::Id)
        && is_absent(names, notation, Column::Lat)
        && is_absent(names, notation, Column::Lon)
        && is_absent(names, notation, Column::Speed)
        && is_absent(names, notation, Column::Heading)
}

/// Whether a column isn't named.
fn is_absent(names: &[Vec<u8>], notation: Notation, column: Column) -> bool
    ensures { IsTrue result ↔ HasNone (texts names.now) (word_of notation column) }
{
    match find(names, column.word(notation)) {
        Occurrence::Nowhere => true,
        Occurrence::Once(_) | Occurrence::Twice => false,
    }
}

/// Returns the columns with these names in this notation. `None` if one occurs twice or is missing.
fn columns_in(names: &[Vec<u8>], notation: Notation) -> Option<Columns>
    ensures some { IfSome result (IsHeaderIn notation (texts names.now)) }
    ensures none { IfNone result ((columns : Columns) →
        ¬ IsHeaderIn notation (texts names.now) columns) }
{
    Some(Columns {
        notation,
        count: names.len(),
        at: required(names, notation, Column::At)?,
        id: required(names, notation, Column::Id)?,
        lat: required(names, notation, Column::Lat)?,
        lon: required(names, notation, Column::Lon)?,
        speed: optional(names, notation, Column::Speed)?,
        heading: optional(names, notation, Column::Heading)?,
    })
}

/// Returns the columns with these names, in one notation. `None` if one occurs twice or is missing,
/// or there are names of both notations.
pub(crate) fn columns_of(names: &[Vec<u8>]) -> Option<Columns>
    ensures some { IfSome result (IsHeader (texts names.now)) }
    ensures none { IfNone result ((columns : Columns) → ¬ IsHeader (texts names.now) columns) }
{
    if names_none(names, Notation::Sumo) {
        columns_in(names, Notation::Own)
    } else if names_none(names, Notation::Own) {
        columns_in(names, Notation::Sumo)
    } else {
        None
    }
}
