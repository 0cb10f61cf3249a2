//! What an application asks a station to send.

ghost use Rattle.std.specs.Prelude.{◌≡◌};
ghost use Rattle.its_station.specs.Beside.{default_options};
ghost use Rattle.its_station.specs.Requests.{gbc_request, shb_request, owned_gbc, owned_shb};

use its_geometry::Area;
use its_gnvalue::{Lifetime, TrafficClass};

/// A payload for the stations in an area, all of them (GBC) or any one (GAC).
#[derive(Clone, Copy)]
pub struct GbcRequest<'a> {
    /// The destination port (BTP-B).
    pub port: u16,
    /// The destination port info.
    pub info: u16,
    /// The traffic class.
    pub class: TrafficClass,
    /// How long the packet lives.
    pub lifetime: Lifetime,
    /// How many hops the packet may take, from 1.
    pub max_hops: u8,
    /// The stations for which it is.
    pub area: Area,
    /// What is sent to the port, at most 1394 octets.
    pub payload: &'a [u8],
}

/// A payload for all stations in reach (SHB).
#[derive(Clone, Copy)]
pub struct ShbRequest<'a> {
    /// The destination port (BTP-B).
    pub port: u16,
    /// The destination port info.
    pub info: u16,
    /// The traffic class.
    pub class: TrafficClass,
    /// What is sent to the port, at most 1394 octets.
    pub payload: &'a [u8],
}

/// The lifetime of beacons and single-hop broadcasts: 6 times 10 s (profile).
pub(crate) const SHORT_LIFETIME: u8 = 0x1a;

/// What a single-hop broadcast has besides its request. The default: 60 s, and zeros.
#[derive(Clone, Copy, Debug, PartialEq, Eq)]
pub struct ShbOptions {
    /// How long the packet lives.
    pub lifetime: Lifetime,
    /// The media-dependent data, for example channel busy ratios and power (EN 302 636-4-2).
    /// Neighbours use it as measured values.
    pub media: [u8; 4],
}

impl Default for ShbOptions {
    /// A lifetime of 60 s, and zeros.
    fn default() -> Self
        ensures { result ≡ default_options }
    {
        ShbOptions {
            lifetime: Lifetime::from_octet(SHORT_LIFETIME),
            media: [0; 4],
        }
    }
}

/// A `GbcRequest` that owns its payload.
#[derive(Debug, Drop, PartialEq, Eq)]
pub struct OwnedGbcRequest {
    /// The destination port (BTP-B).
    pub port: u16,
    /// The destination port info.
    pub info: u16,
    /// The traffic class.
    pub class: TrafficClass,
    /// How long the packet lives.
    pub lifetime: Lifetime,
    /// How many hops the packet may take, from 1.
    pub max_hops: u8,
    /// The stations for which it is.
    pub area: Area,
    /// What is sent to the port, at most 1394 octets.
    pub payload: Vec<u8>,
}

/// An `ShbRequest` that owns its payload.
#[derive(Debug, Drop, PartialEq, Eq)]
pub struct OwnedShbRequest {
    /// The destination port (BTP-B).
    pub port: u16,
    /// The destination port info.
    pub info: u16,
    /// The traffic class.
    pub class: TrafficClass,
    /// What is sent to the port, at most 1394 octets.
    pub payload: Vec<u8>,
}

impl OwnedGbcRequest {
    /// The same request, with the payload lent.
    pub fn lend(&self) -> GbcRequest<'_>
        ensures { gbc_request result ≡ owned_gbc self.now }
    {
        GbcRequest {
            port: self.port,
            info: self.info,
            class: self.class,
            lifetime: self.lifetime,
            max_hops: self.max_hops,
            area: self.area,
            payload: self.payload.as_slice(),
        }
    }
}

impl OwnedShbRequest {
    /// The same request, with the payload lent.
    pub fn lend(&self) -> ShbRequest<'_>
        ensures { shb_request result ≡ owned_shb self.now }
    {
        ShbRequest {
            port: self.port,
            info: self.info,
            class: self.class,
            payload: self.payload.as_slice(),
        }
    }
}
