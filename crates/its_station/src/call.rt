//! The calls of a station, as values.

use crate::requests::{OwnedGbcRequest, OwnedShbRequest};
use its_gnvalue::Place;

/// A call that the applications of a station make, with its arguments except the time. It owns its
/// octets.
#[derive(Debug, Drop, PartialEq, Eq)]
pub enum OwnCall {
    /// `move_to`, with a speed in its range.
    MoveTo {
        /// The position of the station.
        place: Place,
        /// Whether the position is accurate.
        pai: bool,
        /// The speed in 0.01 m/s, -16384 to 16383.
        speed: i16,
        /// The heading in 0.1 degree.
        heading: u16,
    },
    /// `open`, of this port.
    Open(u16),
    /// `close`, of this port.
    Close(u16),
    /// `tick`, with this jitter in milliseconds.
    Tick(u16),
    /// `send_shb`.
    SendShb(OwnedShbRequest),
    /// `send_geobroadcast`.
    SendGeobroadcast(OwnedGbcRequest),
    /// `send_geoanycast`.
    SendGeoanycast(OwnedGbcRequest),
    /// `restart`, with the next sequence number.
    Restart(u16),
}

/// A call of a station with its arguments, except the time. It owns its octets.
#[derive(Debug, Drop, PartialEq, Eq)]
pub enum Call {
    /// A call of the applications of the station.
    Own(OwnCall),
    /// `receive`, of these octets.
    Receive(Vec<u8>),
}
