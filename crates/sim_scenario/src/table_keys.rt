//! Which keys a table of a scenario may have.

use crate::part::Part;
use its_words::keys::Key;
use sim_settings::AIR_KEYS;

/// Returns the keys that this part of the scenario may have. `None` is the scenario itself.
pub(crate) fn keys_of(part: Option<Part>) -> &'static [Key] {
    match part {
        None => &SCENARIO_KEYS,
        Some(Part::Station(_)) => &STATION_KEYS,
        Some(Part::Air) => &AIR_KEYS,
        Some(Part::Every(_)) => &TRAFFIC_KEYS,
        Some(Part::Moves) => &MOVES_KEYS,
        Some(Part::Event(_)) => &EVENT_KEYS,
        Some(Part::Expectation(_)) => &EXPECTATION_KEYS,
    }
}

/// The keys of a scenario.
const SCENARIO_KEYS: [Key; 6] = [
    Key::Station,
    Key::Event,
    Key::Air,
    Key::Every,
    Key::Moves,
    Key::Expect,
];

/// The keys of a station, in the order in which they are checked.
const STATION_KEYS: [Key; 7] = [
    Key::Address,
    Key::Lat,
    Key::Lon,
    Key::Capacity,
    Key::Remember,
    Key::Absent,
    Key::Contention,
];

/// The keys of traffic, in the order in which they are checked.
const TRAFFIC_KEYS: [Key; 5] = [Key::Period, Key::Port, Key::Info, Key::Tc, Key::Octets];

/// The keys of events, whatever they do, in the order in which they are checked.
const EVENT_KEYS: [Key; 24] = [
    Key::Station,
    Key::Id,
    Key::At,
    Key::Do,
    Key::Lat,
    Key::Lon,
    Key::Pai,
    Key::Speed,
    Key::Heading,
    Key::Jitter,
    Key::Number,
    Key::Frame,
    Key::Port,
    Key::Info,
    Key::Tc,
    Key::Lt,
    Key::Hops,
    Key::Shape,
    Key::Alat,
    Key::Alon,
    Key::A,
    Key::B,
    Key::Angle,
    Key::Payload,
];

/// The keys of how moves are read, in the order in which they are checked.
const MOVES_KEYS: [Key; 7] = [
    Key::Begin,
    Key::Gone,
    Key::Mid,
    Key::Capacity,
    Key::Remember,
    Key::Ports,
    Key::Contention,
];

/// The keys of what is expected, in the order in which they are checked.
const EXPECTATION_KEYS: [Key; 3] = [Key::Send, Key::Reached, Key::Within];
