//! Verdicts: what was found of a record, and why.

use its_faults::FrameFault;
use its_gnvalue::Mac;
use its_headers::Kind;

/// What a duty says of a record (ISO/IEC 9646).
#[derive(Clone, Copy, Debug, PartialEq, Eq)]
pub enum Verdict {
    /// The record obeys the rule.
    Pass,
    /// No station of the written rules made this capture, if the claims are true.
    Fail(Breach),
    /// Neither.
    Inconclusive(Doubt),
}

/// Why a record breaks a rule.
#[derive(Clone, Copy, Debug, PartialEq, Eq)]
pub enum Breach {
    /// The octets are no packet.
    Form(FrameFault),
    /// A beacon or a single-hop broadcast isn't sent to all.
    LinkTarget(Mac),
    /// The mobile bit is this one.
    MobileBit(bool),
    /// So many hops are left, of so many.
    Hops(u8, u8),
    /// The lifetime of a beacon is this one, in milliseconds.
    Lifetime(u64),
    /// This sequence number follows that one, sooner than the station can have used those between.
    Number(u16, u16),
    /// A beacon comes so early after a packet that puts it off, in nanoseconds.
    BeaconEarly(u64),
    /// A packet of this kind was forwarded.
    Kind(Kind),
    /// What was forwarded is no packet that was heard, with one hop fewer.
    NotFaithful,
    /// A packet was forwarded so late after its last copy with one hop more, in nanoseconds.
    Late(u64),
    /// A packet was forwarded again, with so many other numbers of its source heard between.
    Again(u32),
    /// A geoanycast was forwarded inside of its area.
    InsideArea,
    /// Inside of its area a packet was sent to this link address, and not to all.
    InsideTo(Mac),
    /// A packet that was accepted, with another hop left, was not forwarded.
    NotForwarded,
}

/// Why it isn't known whether a record obeys a rule.
#[derive(Clone, Copy, Debug, PartialEq, Eq)]
pub enum Doubt {
    /// The record doesn't have all octets of the frame.
    Cut,
    /// The frame is outside of the profile.
    OutsideProfile(FrameFault),
    /// The frame isn't read, and no source that it names is the station.
    NotRead(FrameFault),
    /// The capture doesn't have the link target.
    NoLinkTarget,
    /// No claim says what the mobile bit is.
    NoMobile,
    /// The standard and the profile differ on this lifetime, in milliseconds.
    LifetimeRange(u64),
    /// So many sequence numbers were used that no packet of the capture has.
    NumbersNotSeen(u32),
    /// A beacon comes so late after a packet that puts it off, in nanoseconds.
    BeaconBetween(u64),
    /// What was forwarded is no packet that was received for sure, with one hop fewer.
    NotFaithful,
    /// A packet was forwarded so late after its last copy with one hop more, in nanoseconds.
    Late(u64),
    /// No copy of a forwarded packet with one hop more was received for sure.
    NeverReceived,
    /// A packet was forwarded again, with so many other numbers of its source heard between.
    Again(u32),
    /// A packet was forwarded for the first time in the capture.
    FirstTime,
    /// A packet was forwarded late, so it isn't known when the station decided to whom.
    DecidedLate,
    /// It isn't known whether the station is inside of the area.
    PlaceUnsure,
    /// The station is outside of the area. To whom a packet goes there is not judged.
    OutsideArea,
    /// Inside of its area a packet was sent to one station. No claim says that it goes to all.
    InsideToOne,
    /// A packet that was heard was not forwarded, and for this reason need not be for sure.
    NotOwed(NotOwed),
}

/// Why it isn't sure that a packet that was heard has to be forwarded.
#[derive(Clone, Copy, Debug, PartialEq, Eq)]
pub enum NotOwed {
    /// No claim says that each frame that the station sent is in the capture.
    Sent,
    /// No claim says that each frame that it received is in the capture: one may have come before.
    Received,
    /// No claim says that each frame of the capture reached it.
    Delivered,
    /// No claim says that the station has no limit on what it forwards.
    Limited,
    /// No claim says that it keeps no packet.
    Buffered,
    /// No claim says that it forwards at once inside of an area.
    OtherForwarding,
    /// The capture doesn't have the link target.
    NoLinkTarget,
    /// The station may have received the number before the capture began.
    KnownBefore,
    /// Another packet of its number may have been accepted in its place, or was forwarded.
    OtherPacket,
    /// Its location table may have been full.
    TableFull,
    /// No claim says that it did not restart.
    Restarted,
    /// It isn't known whether the station is inside of the area.
    PlaceUnsure,
    /// The capture ends before the frame would have to be in it.
    CaptureEnds,
    /// A record isn't read that may be another packet of its number, or the frame.
    NotRead,
}
