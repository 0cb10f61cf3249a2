//! The station that received a frame, as the limits see it.

ghost use Rattle.std.specs.Prelude.{◌≡◌, ◌<◌, ◌^◌};
ghost use Rattle.its_gnvalue.specs.Values.{mid_of as mid_in};
ghost use Rattle.its_governor.specs.Pressure.{turn_in};

use its_gnvalue::GnAddress;

/// How many MIDs there are.
const MIDS: u64 = 1 << 48;

/// How far apart the turns of stations are whose MIDs follow each other.
const SPREAD: u64 = 31;

/// A station that received a frame.
#[derive(Clone, Copy, Debug, PartialEq, Eq)]
pub struct Receiver {
    /// Its address.
    pub address: GnAddress,
    /// Whether its location table had a live entry of the frame's source before the frame came. Only
    /// if the bucket of all forwarded frames is under pressure (`Governor::is_pressed`), this decides
    /// anything.
    pub knew_source: bool,
}

impl Receiver {
    /// Returns which of so many turns a packet has at this station, from 0. Stations in reach of each
    /// other have different turns for it, also if their addresses follow each other.
    pub(crate) fn turn_in(&self, turns: u32, source: GnAddress, number: Option<u16>) -> u32
        requires { 0 < turns }
        ensures { result ≡ turn_in turns self.now.address source number }
    {
        let sum = SPREAD * mid_of(self.address) + mid_of(source) + u64::from(number.unwrap_or(0));
        (sum % u64::from(turns)) as u32
    }
}

/// The MID of an address, as a number.
fn mid_of(address: GnAddress) -> u64
    ensures value { result ≡ mid_in address }
    ensures fits { result < 2 ^ 48 }
{
    address.as_u64() % MIDS
}
