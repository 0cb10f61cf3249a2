//! Rates of frames, and the limits of a station.

ghost use Rattle.std.specs.Prelude.{◌↔◌, IsTrue, Some};
ghost use Rattle.its_governor.specs.Forwarding.{AreRemembered, RemembersSources};

/// How many frames may pass at once, and how many per second from then on.
#[derive(Clone, Copy, Debug, PartialEq, Eq)]
pub struct Rate {
    /// The size of the bucket: frames that may pass at once.
    pub burst: u32,
    /// Frames that are added to the bucket per second, up to its size.
    pub per_second: u32,
}

impl Rate {
    /// All frames that a station forwards, with `Limits::CHANNEL`.
    pub const CHANNEL_FORWARD: Rate = Rate {
        burst: 50,
        per_second: 100,
    };

    /// The frames of each source that it forwards.
    pub const CHANNEL_SOURCE: Rate = Rate {
        burst: 20,
        per_second: 20,
    };

    /// The station's own packets.
    pub const CHANNEL_OWN: Rate = Rate {
        burst: 50,
        per_second: 50,
    };
}

/// The limits on what a station sends. `None` is no limit.
#[derive(Clone, Copy, Debug, PartialEq, Eq)]
pub struct Limits {
    /// All frames that are forwarded.
    pub forward: Option<Rate>,
    /// The frames of each source that are forwarded.
    pub source: Option<Rate>,
    /// The station's own packets, without its beacons.
    pub own: Option<Rate>,
    /// A packet with more hops left than this is not forwarded. 255 is no limit.
    pub hop_cap: u8,
    /// Whether a packet for an area that was delivered is neither delivered nor forwarded again
    /// within its lifetime, as long as it is among the last 1024 of them. Its copies have the same
    /// source, sequence number and time stamp.
    pub delivers_once: bool,
}

impl Limits {
    /// No limit: all passes.
    pub const NONE: Limits = Limits {
        forward: None,
        source: None,
        own: None,
        hop_cap: 255,
        delivers_once: false,
    };

    /// Limits that a channel of 6 Mbit/s bears. A frame of 100 octets takes some 250 microseconds
    /// of it. So 100 frames per second are 2.5 % of the channel, and ten stations in reach of each
    /// other that all forward take a quarter of it. A source has a fifth of that.
    pub const CHANNEL: Limits = Limits {
        forward: Some(Rate::CHANNEL_FORWARD),
        source: Some(Rate::CHANNEL_SOURCE),
        own: Some(Rate::CHANNEL_OWN),
        hop_cap: 10,
        delivers_once: true,
    };

    /// Whether the limit per source holds in every list of calls. The sources of the last 256 frames that
    /// were forwarded are remembered. So the common limit has to be such that a source whose last frame
    /// is no longer among these has a full bucket again. Without a common limit it isn't. With a burst
    /// below 256 it is, if the source's burst times the common rate is at most `256 - burst` times the
    /// source's rate.
    pub fn remembers_sources(&self) -> bool
        ensures { IsTrue result ↔ AreRemembered self.now.forward self.now.source }
    {
        match (self.forward, self.source) {
            (_, None) => true,
            (None, Some(_)) => false,
            (Some(forward), Some(source)) => remembers(forward, source),
        }
    }
}

/// Whether a source has a full bucket again before it is forgotten.
fn remembers(forward: Rate, source: Rate) -> bool
    ensures { IsTrue result ↔ RemembersSources (Some forward) source }
{
    forward.burst < 256
        && u64::from(source.burst) * u64::from(forward.per_second)
            <= u64::from(256 - forward.burst) * u64::from(source.per_second)
}
