//! The header of BTP-A or BTP-B that a payload begins with (EN 302 636-5-1).

ghost use Rattle.std.specs.Prelude.{◌≡◌};
ghost use Rattle.its_outside.specs.Outside.{btp_of};

use crate::fields::NextHeader;
use byteorder::{BigEndian, ByteOrder};

/// A header of BTP (EN 302 636-5-1).
#[derive(Clone, Copy, Debug, PartialEq, Eq)]
pub enum BtpHeader {
    /// BTP-A: the destination port, and the source port.
    A(u16, u16),
    /// BTP-B: the destination port, and the destination port info.
    B(u16, u16),
}

/// The header of BTP with which the payload begins, if this next header announces one and the
/// payload has at least four octets.
pub fn btp_header(next: NextHeader, payload: &[u8]) -> Option<BtpHeader>
    ensures { result ≡ btp_of next payload.now }
{
    if payload.len() < 4 {
        return None;
    }
    let (first, second) = (
        BigEndian::read_u16(payload),
        BigEndian::read_u16(&payload[2..]),
    );
    match next {
        NextHeader::BtpA => Some(BtpHeader::A(first, second)),
        NextHeader::BtpB => Some(BtpHeader::B(first, second)),
        NextHeader::Unspecified | NextHeader::Ipv6 => None,
    }
}
