//! What a file says of an interface.

ghost use Rattle.std.specs.Prelude.{◌≡◌};
ghost use Rattle.cap_pcap.specs.InterfaceHeads.{millis_head, classic_info};

use crate::name::InterfaceName;
use crate::pcap::{FileHeader, Unit};
use cap_linklayers::LinkLayer;

/// What an interface block says in addition to the name.
#[derive(Clone, Copy, Debug, PartialEq, Eq)]
pub struct InterfaceHead {
    /// The number of its link type.
    pub link: u16,
    /// `if_tsresol`: a tick is 10^-n of a second for n, 2^-n for 128 + n.
    pub resolution: u8,
    /// `if_tsoffset`: the seconds that are added to each time, a signed number of 64 bits.
    pub offset: u64,
}

impl InterfaceHead {
    /// Returns the head of an Ethernet interface whose ticks are milliseconds.
    pub fn of_millis() -> InterfaceHead
        ensures { result ≡ millis_head }
    {
        InterfaceHead {
            link: 1,
            resolution: 3,
            offset: 0,
        }
    }
}

/// What a file says of an interface.
#[derive(Clone, Copy)]
pub struct InterfaceInfo {
    /// What an interface block says in addition to the name.
    pub head: InterfaceHead,
    /// Its link layer, if that is one that is read.
    pub layer: Option<LinkLayer>,
    /// Its name, if it has one of at most 128 octets.
    pub name: Option<InterfaceName>,
}

impl InterfaceInfo {
    /// Returns what the header of a classic pcap file says.
    pub(crate) fn of_file(header: FileHeader) -> InterfaceInfo
        ensures { result ≡ classic_info header }
    {
        let resolution = match header.magic.unit {
            Unit::Micro => 6,
            Unit::Nano => 9,
        };
        InterfaceInfo {
            head: InterfaceHead {
                link: header.layer.number() as u16,
                resolution,
                offset: 0,
            },
            layer: Some(header.layer),
            name: None,
        }
    }
}
