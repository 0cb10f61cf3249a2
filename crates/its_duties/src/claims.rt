//! What is claimed of a station under test and of the capture that it was recorded in.

use its_gnvalue::{GnAddress, Mac, Place};

/// How a station forwards a packet inside of its area (itsGnAreaForwardingAlgorithm).
#[derive(Clone, Copy, Debug, PartialEq, Eq)]
pub enum AreaForwarding {
    /// To all, at once.
    Simple,
    /// In another way, or it is not known how.
    Other,
}

/// How a station sends a packet toward its area (itsGnNonAreaForwardingAlgorithm).
#[derive(Clone, Copy, Debug, PartialEq, Eq)]
pub enum NonAreaForwarding {
    /// To the neighbour that is nearest to the area's centre.
    Greedy,
    /// In another way, or it is not known how.
    Other,
}

/// Which packets of its own put a station's beacon off.
#[derive(Clone, Copy, Debug, PartialEq, Eq)]
pub enum BeaconReset {
    /// Each packet of its own.
    Any,
    /// Beacons and single-hop broadcasts.
    Shb,
}

/// After how many sequence numbers they begin again.
#[derive(Clone, Copy, Debug, PartialEq, Eq)]
pub enum SequenceModulus {
    /// 65535.
    Short,
    /// 65536.
    Full,
}

/// What the maker of a station claims of it, and what is known of the capture. A claim that is
/// false or absent says nothing: it makes fewer verdicts fails or passes. Times are in
/// milliseconds.
#[derive(Clone, Copy)]
pub struct Claims {
    /// The station's GN address.
    pub address: GnAddress,
    /// Its link address. A frame with this link source is the station's.
    pub mac: Mac,
    /// Where it stands all the time, if that is known.
    pub place: Option<Place>,
    /// How far the place that it uses may be from `place`, north and east each, in metres.
    pub accuracy: u16,
    /// How far its arithmetic of distances may differ from this project's, per mille.
    pub tolerance: u16,
    /// The greatest age of the place that it uses, and of a position vector that it sends.
    pub age: Option<u32>,
    /// The mobile bit of its packets.
    pub mobile: Option<bool>,
    /// How it forwards inside of an area.
    pub area: AreaForwarding,
    /// How it forwards outside.
    pub elsewhere: NonAreaForwarding,
    /// How many sequence numbers of a source it remembers (itsGnDPLLength).
    pub remember: u32,
    /// How long a source counts after a packet of it (itsGnLifetimeLocTE).
    pub life: u32,
    /// How many sources its location table has room for, for certain.
    pub capacity: Option<u32>,
    /// It processes only the frames of this project's profile.
    pub profile: bool,
    /// From one packet of its own to its next beacon, at the least
    /// (itsGnBeaconServiceRetransmitTimer).
    pub interval: u32,
    /// How much later a beacon may come (itsGnBeaconServiceMaxJitter).
    pub jitter: u32,
    /// Which packets of its own put its beacon off.
    pub reset: Option<BeaconReset>,
    /// The lifetime of its beacons (itsGnDefaultPacketLifetime).
    pub lifetime: u32,
    /// After how many sequence numbers they begin again.
    pub modulus: Option<SequenceModulus>,
    /// It uses no sequence number without a frame, and its frames leave in the order of their
    /// calls.
    pub gapless: bool,
    /// How many sequence numbers it uses at most in a second.
    pub rate: u32,
    /// It did not restart, and its clock was not set.
    pub steady: bool,
    /// It knew of no other station when the capture began, and no frame was on its way to it.
    pub fresh: bool,
    /// It has no limit on what it forwards.
    pub unlimited: bool,
    /// It keeps no packet to send it later, and never changes a lifetime.
    pub unbuffered: bool,
    /// Each frame that it sent is in the capture.
    pub sent: bool,
    /// Each frame that it received is in the capture.
    pub received: bool,
    /// Each frame of the capture that is for it reached it, once.
    pub delivered: bool,
    /// From a reception to the frame that it causes, at most.
    pub within: u32,
    /// From a call of its applications to the frame that it causes, at most.
    pub queue: u32,
    /// How far each time stamp may be from the true time.
    pub skew: u32,
    /// Up to when the capture is complete, in milliseconds since 1970, if that is known.
    pub until: Option<u64>,
    /// The interface of the capture in which the station's own frames are judged. `None`: each.
    pub interface: Option<u32>,
}
