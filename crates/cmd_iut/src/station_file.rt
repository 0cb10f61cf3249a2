//! Reading a station file.

use crate::fault::{StationFault, Wanted};
use crate::table_keys::{TABLES, TableName};
use cmd_reporting::Fault;
use its_duties::{AreaForwarding, BeaconReset, Claims, NonAreaForwarding, SequenceModulus};
use its_gnvalue::{GnAddress, Mac, Place};
use std::alloc::{AllocError, Global};
use std::str;
use toml::{Table, Value};

/// The clock of the stamps of a capture.
#[derive(Clone, Copy)]
pub(crate) enum StampClock {
    /// Any clock.
    None,
    /// UTC.
    Utc,
}

/// What a station file says.
#[derive(Clone, Copy)]
pub struct StationFile {
    /// What is claimed.
    pub claims: Claims,
    /// The clock of the stamps. No duty that is judged needs it.
    pub(crate) clock: StampClock,
    /// How far the stamps may be from that clock, in milliseconds.
    pub(crate) clock_error: u32,
}

/// The greatest values of keys.
const MOST_AGE: u32 = 600_000;

const MOST_LIFE: u32 = 3_600_000;

const MOST_LIFETIME: u32 = 6_300_000;

const MOST_WAIT: u32 = 60_000;

/// How far stamps may be from their clock by default, in milliseconds.
pub(crate) const USUAL_CLOCK_ERROR: u32 = 50;

const MOST_UNTIL: i64 = 9_223_372_036_854;

/// A table of a station file, if the file has it.
#[derive(Clone, Copy)]
struct Keys<'a> {
    name: TableName,
    table: Option<&'a Table>,
}

impl<'a> Keys<'a> {
    /// Returns the table with this name, if there is one. `NotTable` if it is another value.
    fn of<'f>(
        alloc: Global,
        document: &'a Table,
        name: TableName,
    ) -> Result<Keys<'a>, StationFault<'f>> {
        let table = match document.get(name.word()) {
            None => None,
            Some(value) => match value.as_table() {
                Some(table) => Some(table),
                None => return Err(not_table(alloc, name.word())?),
            },
        };
        Ok(Keys { name, table })
    }

    /// Returns the value of a key.
    fn get(&self, key: &'static str) -> Option<&'a Value> {
        match self.table {
            Some(table) => table.get(key),
            None => None,
        }
    }

    /// Returns the fault of a key's value.
    fn wrong<'f>(&self, key: &'static str, wanted: Wanted) -> StationFault<'f> {
        StationFault::Value(self.name, key, wanted)
    }

    /// Reads a whole number in a range, if the key has a value.
    fn integer<'f>(
        &self,
        key: &'static str,
        least: i64,
        most: i64,
    ) -> Result<Option<i64>, StationFault<'f>> {
        let Some(value) = self.get(key) else {
            return Ok(None);
        };
        match value.as_integer() {
            Some(number) if least <= number && number <= most => Ok(Some(number)),
            _ => Err(self.wrong(key, Wanted::Whole(least, most))),
        }
    }

    /// Reads a 32-bit number from 0 or 1 on, if the key has a value.
    fn number<'f>(
        &self,
        key: &'static str,
        least: u32,
        most: u32,
    ) -> Result<Option<u32>, StationFault<'f>> {
        match self.integer(key, i64::from(least), i64::from(most))? {
            Some(number) => match u32::try_from(number) {
                Ok(number) => Ok(Some(number)),
                Err(_) => Ok(None),
            },
            None => Ok(None),
        }
    }

    /// Reads a 32-bit number from 0 or 1 on, or returns a default.
    fn number_or<'f>(
        &self,
        key: &'static str,
        least: u32,
        most: u32,
        default: u32,
    ) -> Result<u32, StationFault<'f>> {
        Ok(self.number(key, least, most)?.unwrap_or(default))
    }

    /// Reads a number from 0 to a greatest one, or returns a default.
    fn short_or<'f>(
        &self,
        key: &'static str,
        most: u32,
        default: u16,
    ) -> Result<u16, StationFault<'f>> {
        match self.number(key, 0, most)? {
            Some(number) => Ok(u16::try_from(number).unwrap_or(default)),
            None => Ok(default),
        }
    }

    /// Reads a truth value, if the key has one.
    fn truth_if_any<'f>(&self, key: &'static str) -> Result<Option<bool>, StationFault<'f>> {
        let Some(value) = self.get(key) else {
            return Ok(None);
        };
        match value.as_bool() {
            Some(holds) => Ok(Some(holds)),
            None => Err(self.wrong(key, Wanted::Truth)),
        }
    }

    /// Reads whether a claim is made.
    fn truth<'f>(&self, key: &'static str) -> Result<bool, StationFault<'f>> {
        Ok(self.truth_if_any(key)?.unwrap_or(false))
    }

    /// Reads whether the value of a key is the first of two keywords. `None` if it has no value.
    fn is_first<'f>(
        &self,
        key: &'static str,
        first: &'static str,
        second: &'static str,
        wanted: &'static str,
    ) -> Result<Option<bool>, StationFault<'f>> {
        let Some(value) = self.get(key) else {
            return Ok(None);
        };
        match value.as_str() {
            Some(word) if word == first => Ok(Some(true)),
            Some(word) if word == second => Ok(Some(false)),
            _ => Err(self.wrong(key, Wanted::Word(wanted))),
        }
    }

    /// Reads the hexadecimal digits of a key as octets, if it has a value.
    fn digits<'f, const N: usize>(
        &self,
        key: &'static str,
        wanted: Wanted,
    ) -> Result<Option<[u8; N]>, StationFault<'f>> {
        let Some(value) = self.get(key) else {
            return Ok(None);
        };
        let mut octets = [0; N];
        match value.as_str() {
            Some(digits) if hex::decode_to_slice(digits, &mut octets).is_ok() => Ok(Some(octets)),
            _ => Err(self.wrong(key, wanted)),
        }
    }
}

impl StationFile {
    /// Reads a station file. Returns the first fault in this order: the document, the keys of each
    /// table in the order of the documentation, unknown tables and keys in the order of the file.
    pub fn read<'f>(alloc: Global, text: &[u8]) -> Result<StationFile, StationFault<'f>> {
        let document = document_of(alloc, text)?;
        let file = StationFile::of(alloc, &document)?;
        refuse_unknown(alloc, text, &document)?;
        Ok(file)
    }

    /// Reads the known keys of a document.
    fn of<'f>(alloc: Global, document: &Table) -> Result<StationFile, StationFault<'f>> {
        let station = Keys::of(alloc, document, TableName::Station)?;
        let mut claims = station_claims(&station)?;
        let keys = Keys::of(alloc, document, TableName::Claims)?;
        read_forwarding(&keys, &mut claims)?;
        read_sending(&keys, &mut claims)?;
        read_conduct(&keys, &mut claims)?;
        let capture = Keys::of(alloc, document, TableName::Capture)?;
        StationFile::with_capture(&capture, claims)
    }

    /// Returns these claims, with what the table of the capture says.
    fn with_capture<'f>(keys: &Keys<'_>, claims: Claims) -> Result<StationFile, StationFault<'f>> {
        let mut claims = claims;
        read_capture(keys, &mut claims)?;
        let clock = clock_of(keys)?;
        let clock_error = keys.number_or("clock_error", 0, MOST_WAIT, USUAL_CLOCK_ERROR)?;
        read_records(keys, &mut claims)?;
        Ok(StationFile {
            claims,
            clock,
            clock_error,
        })
    }
}

/// Parses a text as a TOML table.
fn document_of<'f>(alloc: Global, text: &[u8]) -> Result<Table, StationFault<'f>> {
    if let Err(error) = str::from_utf8(text) {
        return Err(StationFault::NotToml(line_at(text, error.valid_up_to())));
    }
    match toml::table_from_slice(alloc, text) {
        Ok(document) => Ok(document),
        Err(error) if error.is_memory() => Err(StationFault::from(AllocError)),
        Err(error) => {
            let start = error.span().map_or(0, |span| span.start);
            Err(StationFault::NotToml(line_at(text, start)))
        }
    }
}

/// Returns the line of an octet of a text, from 1.
fn line_at(text: &[u8], place: usize) -> usize {
    let before = text.get(..place).unwrap_or(text);
    let breaks = before.iter().filter(|octet| **octet == b'\n').count();
    breaks.saturating_add(1)
}

/// Returns the fault of a value that is not a known table.
fn not_table<'f>(alloc: Global, name: &str) -> Result<StationFault<'f>, AllocError> {
    Ok(StationFault::NotTable(String::from_str(alloc, name)?))
}

/// Returns the claims of a station with this address. Each other key has its default.
pub(crate) fn usual_claims(address: GnAddress) -> Claims {
    Claims {
        address,
        mac: address.mid(),
        place: None,
        accuracy: 10,
        tolerance: 10,
        age: None,
        mobile: None,
        area: AreaForwarding::Other,
        elsewhere: NonAreaForwarding::Other,
        remember: 8,
        life: 20_000,
        capacity: None,
        profile: false,
        interval: 3000,
        jitter: 750,
        reset: None,
        lifetime: 60_000,
        modulus: None,
        gapless: false,
        rate: 1000,
        steady: false,
        fresh: false,
        unlimited: false,
        unbuffered: false,
        sent: false,
        received: false,
        delivered: false,
        within: 50,
        queue: 5,
        skew: 1,
        until: None,
        interface: None,
    }
}

/// Reads the table of the station.
fn station_claims<'f>(keys: &Keys<'_>) -> Result<Claims, StationFault<'f>> {
    let mut claims = usual_claims(address_of(keys)?);
    if let Some(mac) = mac_of(keys)? {
        claims.mac = mac;
    }
    claims.place = place_of(keys)?;
    claims.accuracy = keys.short_or("accuracy", 65535, claims.accuracy)?;
    claims.tolerance = keys.short_or("tolerance", 1000, claims.tolerance)?;
    claims.age = keys.number("age", 0, MOST_AGE)?;
    claims.mobile = keys.truth_if_any("mobile")?;
    Ok(claims)
}

/// Reads the station's address.
fn address_of<'f>(keys: &Keys<'_>) -> Result<GnAddress, StationFault<'f>> {
    let address = match keys.digits::<8>("address", Wanted::Address)? {
        Some(octets) => GnAddress::from_u64(u64::from_be_bytes(octets)).ok(),
        None => None,
    };
    match address {
        Some(address) => Ok(address),
        None => Err(keys.wrong("address", Wanted::Address)),
    }
}

/// Reads its link address, if there is one.
fn mac_of<'f>(keys: &Keys<'_>) -> Result<Option<Mac>, StationFault<'f>> {
    let Some(octets) = keys.digits::<6>("mac", Wanted::LinkAddress)? else {
        return Ok(None);
    };
    let mac = Mac::from_octets(octets);
    if mac.is_group() {
        return Err(keys.wrong("mac", Wanted::LinkAddress));
    }
    Ok(Some(mac))
}

/// Reads its position, if the file has both coordinates.
fn place_of<'f>(keys: &Keys<'_>) -> Result<Option<Place>, StationFault<'f>> {
    let lat = keys.integer("lat", -900_000_000, 900_000_000)?;
    if lat.is_none() && keys.get("lon").is_some() {
        return Err(keys.wrong("lat", Wanted::Pair));
    }
    let lon = keys.integer("lon", -1_800_000_000, 1_800_000_000)?;
    let Some(lat) = lat else {
        return Ok(None);
    };
    let Some(lon) = lon else {
        return Err(keys.wrong("lon", Wanted::Pair));
    };
    place_at(keys, lat, lon)
}

/// Returns the position with two coordinates.
fn place_at<'f>(keys: &Keys<'_>, lat: i64, lon: i64) -> Result<Option<Place>, StationFault<'f>> {
    let (Ok(lat), Ok(lon)) = (i32::try_from(lat), i32::try_from(lon)) else {
        return Err(keys.wrong("lon", Wanted::Pair));
    };
    match Place::new(lat, lon) {
        Ok(place) => Ok(Some(place)),
        Err(_) => Err(keys.wrong("lon", Wanted::Pair)),
    }
}

/// Reads what the table of claims says about forwarding.
fn read_forwarding<'f>(keys: &Keys<'_>, claims: &mut Claims) -> Result<(), StationFault<'f>> {
    claims.area = area_of(keys)?;
    claims.elsewhere = elsewhere_of(keys)?;
    claims.remember = keys.number_or("remember", 1, 256, claims.remember)?;
    claims.life = keys.number_or("life", 1, MOST_LIFE, claims.life)?;
    claims.capacity = keys.number("capacity", 1, 4096)?;
    claims.profile = keys.truth("profile")?;
    Ok(())
}

/// Reads how the station forwards inside an area.
fn area_of<'f>(keys: &Keys<'_>) -> Result<AreaForwarding, StationFault<'f>> {
    match keys.is_first("area", "simple", "other", "simple, other")? {
        Some(true) => Ok(AreaForwarding::Simple),
        _ => Ok(AreaForwarding::Other),
    }
}

/// Reads how it forwards outside an area.
fn elsewhere_of<'f>(keys: &Keys<'_>) -> Result<NonAreaForwarding, StationFault<'f>> {
    match keys.is_first("elsewhere", "greedy", "other", "greedy, other")? {
        Some(true) => Ok(NonAreaForwarding::Greedy),
        _ => Ok(NonAreaForwarding::Other),
    }
}

/// Reads what the table of claims says about what the station sends by itself.
fn read_sending<'f>(keys: &Keys<'_>, claims: &mut Claims) -> Result<(), StationFault<'f>> {
    claims.interval = keys.number_or("interval", 0, MOST_LIFE, claims.interval)?;
    claims.jitter = keys.number_or("jitter", 0, MOST_LIFE, claims.jitter)?;
    claims.reset = reset_of(keys)?;
    claims.lifetime = keys.number_or("lifetime", 0, MOST_LIFETIME, claims.lifetime)?;
    claims.modulus = modulus_of(keys)?;
    Ok(())
}

/// Reads what the table of claims says about the station's behaviour at all times.
fn read_conduct<'f>(keys: &Keys<'_>, claims: &mut Claims) -> Result<(), StationFault<'f>> {
    claims.gapless = keys.truth("gapless")?;
    claims.rate = keys.number_or("rate", 1, 1_000_000, claims.rate)?;
    claims.steady = keys.truth("steady")?;
    claims.fresh = keys.truth("fresh")?;
    claims.unlimited = keys.truth("unlimited")?;
    claims.unbuffered = keys.truth("unbuffered")?;
    Ok(())
}

/// Reads which packets restart its beacon interval, if the file says it.
fn reset_of<'f>(keys: &Keys<'_>) -> Result<Option<BeaconReset>, StationFault<'f>> {
    match keys.is_first("reset", "any", "shb", "any, shb")? {
        Some(true) => Ok(Some(BeaconReset::Any)),
        Some(false) => Ok(Some(BeaconReset::Shb)),
        None => Ok(None),
    }
}

/// Reads the modulus of sequence numbers, if there is one.
fn modulus_of<'f>(keys: &Keys<'_>) -> Result<Option<SequenceModulus>, StationFault<'f>> {
    let Some(value) = keys.get("modulus") else {
        return Ok(None);
    };
    match value.as_integer() {
        Some(65535) => Ok(Some(SequenceModulus::Short)),
        Some(65536) => Ok(Some(SequenceModulus::Full)),
        _ => Err(keys.wrong("modulus", Wanted::Modulus)),
    }
}

/// Reads the table of the capture, up to its clock.
fn read_capture<'f>(keys: &Keys<'_>, claims: &mut Claims) -> Result<(), StationFault<'f>> {
    claims.sent = keys.truth("sent")?;
    claims.received = keys.truth("received")?;
    claims.delivered = keys.truth("delivered")?;
    claims.within = keys.number_or("within", 0, MOST_WAIT, claims.within)?;
    claims.queue = keys.number_or("queue", 0, MOST_WAIT, claims.queue)?;
    claims.skew = keys.number_or("skew", 0, MOST_WAIT, claims.skew)?;
    Ok(())
}

/// The clock of the stamps.
fn clock_of<'f>(keys: &Keys<'_>) -> Result<StampClock, StationFault<'f>> {
    match keys.is_first("clock", "utc", "none", "none, utc")? {
        Some(true) => Ok(StampClock::Utc),
        _ => Ok(StampClock::None),
    }
}

/// Reads the table of the capture, after its clock.
fn read_records<'f>(keys: &Keys<'_>, claims: &mut Claims) -> Result<(), StationFault<'f>> {
    claims.until = match keys.integer("until", 0, MOST_UNTIL)? {
        Some(until) => u64::try_from(until).ok(),
        None => None,
    };
    if keys.number("tap", 0, 63)?.unwrap_or(0) != 0 {
        return Err(keys.wrong("tap", Wanted::Tap));
    }
    claims.interface = keys.number("interface", 0, 65535)?;
    Ok(())
}

/// Refuses a document with an unknown table or key. Returns the fault of the first, in the order of
/// lines.
fn refuse_unknown<'f>(
    alloc: Global,
    text: &[u8],
    document: &Table,
) -> Result<(), StationFault<'f>> {
    if let Some(fault) = unknown_in_lines(alloc, text, document)? {
        return Err(fault);
    }
    for name in document.keys() {
        let name = name.as_str();
        let Some(table) = TableName::named(name) else {
            return Err(not_table(alloc, name)?);
        };
        if let Some(key) = unknown_key(document, table) {
            return Err(StationFault::UnknownKey(table, String::from_str(alloc, key)?));
        }
    }
    Ok(())
}

/// Returns the first unknown key of a table, in the order of octets.
fn unknown_key(document: &Table, name: TableName) -> Option<&str> {
    let table = document.get(name.word())?.as_table()?;
    for key in table.keys() {
        if !name.has_key(key.as_str()) {
            return Some(key.as_str());
        }
    }
    None
}

/// Returns the first line of a file that begins with an unknown table or key of the document.
fn unknown_in_lines<'f>(
    alloc: Global,
    text: &[u8],
    document: &Table,
) -> Result<Option<StationFault<'f>>, AllocError> {
    let Ok(text) = str::from_utf8(text) else {
        return Ok(None);
    };
    let mut table = None;
    for line in text.lines() {
        let line = line.trim();
        if let Some(head) = line.strip_prefix("[") {
            let name = bare_word(head);
            table = TableName::named(name);
            if table.is_none() && document.get(name).is_some() {
                return Ok(Some(not_table(alloc, name)?));
            }
        } else if let Some(fault) = unknown_in_line(alloc, line, table, document)? {
            return Ok(Some(fault));
        }
    }
    Ok(None)
}

/// Returns the unknown key or table at the beginning of a line in this table.
fn unknown_in_line<'f>(
    alloc: Global,
    line: &str,
    table: Option<TableName>,
    document: &Table,
) -> Result<Option<StationFault<'f>>, AllocError> {
    let name = bare_word(line);
    let Some(table) = table else {
        if document.get(name).is_some() && TableName::named(name).is_none() {
            return Ok(Some(not_table(alloc, name)?));
        }
        return Ok(None);
    };
    let Some(keys) = document.get(table.word()) else {
        return Ok(None);
    };
    let is_key = keys.as_table().is_some_and(|keys| keys.get(name).is_some());
    if is_key && !table.has_key(name) {
        let name = String::from_str(alloc, name)?;
        return Ok(Some(StationFault::UnknownKey(table, name)));
    }
    Ok(None)
}

/// Returns the word at the beginning of a line.
fn bare_word(line: &str) -> &str {
    let is_end = |c: char| !(c.is_ascii_alphanumeric() || c == '_' || c == '-');
    let line = line.trim_start();
    match line.find(is_end) {
        Some(end) => line.get(..end).unwrap_or(line),
        None => line,
    }
}
