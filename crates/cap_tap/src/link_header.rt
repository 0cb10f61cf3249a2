//! The header of IEEE 802.11, as far as it says that a frame is sent again.

use cap_linklayers::LinkLayer;

/// What the header of a frame of IEEE 802.11 says, by which another sending of it is known.
#[derive(Clone, Copy, PartialEq, Eq)]
pub struct LinkHeader {
    /// The addresses, up to four, and zeros.
    addresses: [u8; 24],
    /// The sequence control.
    control: [u8; 2],
    /// The TID of a QoS frame.
    tid: Option<u8>,
}

/// The frame of a record of IEEE 802.11.
#[derive(Clone, Copy)]
pub struct LinkFrame {
    /// What all sendings of the frame have in common.
    pub header: LinkHeader,
    /// Whether its retry bit is set.
    pub retry: bool,
}

/// The bit of the second octet of the frame control for a frame that is sent again.
const RETRY: u8 = 0x08;

/// The bits for both ends of a distribution system: there are four addresses then.
const BOTH_DS: u8 = 0x03;

/// The bit of the first octet for QoS data.
const QOS: u8 = 0x80;

impl LinkFrame {
    /// The header in the octets of a record of this link layer. `None` if it is of another, or ends
    /// before that.
    pub fn of(layer: LinkLayer, octets: &[u8]) -> Option<LinkFrame> {
        let start = match layer {
            LinkLayer::Ieee80211 => 0,
            LinkLayer::Radiotap => usize::from(u16::from_le_bytes([
                *octets.get(2)?,
                *octets.get(3)?,
            ])),
            LinkLayer::Bare | LinkLayer::Ethernet | LinkLayer::Sll | LinkLayer::Sll2 => {
                return None;
            }
        };
        LinkFrame::read(octets.get(start..)?)
    }

    /// The header that octets begin with.
    fn read(octets: &[u8]) -> Option<LinkFrame> {
        let (kind, flags) = (*octets.first()?, *octets.get(1)?);
        let mut addresses = [0; 24];
        addresses[..18].copy_from_slice(octets.get(4..22)?);
        let mut control = [0; 2];
        control.copy_from_slice(octets.get(22..24)?);
        let has_four = flags & BOTH_DS == BOTH_DS;
        if has_four {
            addresses[18..].copy_from_slice(octets.get(24..30)?);
        }
        let qos = if has_four { 30 } else { 24 };
        let tid = if kind & QOS == 0 {
            None
        } else {
            Some(*octets.get(qos)? % 16)
        };
        Some(LinkFrame {
            header: LinkHeader {
                addresses,
                control,
                tid,
            },
            retry: flags & RETRY != 0,
        })
    }
}
