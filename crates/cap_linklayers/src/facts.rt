//! What the headers of a link layer say about a record besides its frame.

ghost use Rattle.cap_linklayers.specs.Facts.{AreFacts, AreNone};

use crate::ethernet::vlan_of;
use crate::ieee80211::is_retry;
use crate::link::LinkLayer;
use crate::radiotap::{is_retry_behind, rate_of, signal_of};

/// What the headers of a link layer say about a record besides its frame.
#[derive(Clone, Copy, Debug, PartialEq, Eq)]
pub struct LinkFacts {
    /// The VLAN identifier of the first tag of Ethernet, 0 to 4095.
    pub vlan: Option<u16>,
    /// The signal at the antenna in dBm, from radiotap.
    pub signal: Option<i8>,
    /// The rate in units of 500 kbit/s, from radiotap.
    pub rate: Option<u8>,
    /// Whether the frame is a retry, by the bit of IEEE 802.11.
    pub retry: bool,
}

impl LinkFacts {
    /// Returns no facts: each is `None`, and `retry` is `false`.
    pub fn none() -> LinkFacts
        ensures { AreNone result }
    {
        LinkFacts {
            vlan: None,
            signal: None,
            rate: None,
            retry: false,
        }
    }

    /// Returns what the headers of this link layer say, which begin these octets. A fact that isn't
    /// there, or of which the record has too few octets, is `None`.
    pub fn of(layer: LinkLayer, octets: &[u8]) -> LinkFacts
        ensures { AreFacts layer octets.now result }
    {
        match layer {
            LinkLayer::Ethernet => LinkFacts {
                vlan: vlan_of(octets),
                ..LinkFacts::none()
            },
            LinkLayer::Radiotap => LinkFacts {
                signal: signal_of(octets),
                rate: rate_of(octets),
                retry: is_retry_behind(octets),
                ..LinkFacts::none()
            },
            LinkLayer::Ieee80211 => LinkFacts {
                retry: is_retry(octets, 0),
                ..LinkFacts::none()
            },
            LinkLayer::Bare | LinkLayer::Sll | LinkLayer::Sll2 => LinkFacts::none(),
        }
    }
}
