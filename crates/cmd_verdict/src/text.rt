//! The texts of verdicts.

use its_duties::{Duty, NotOwed};
use its_faults::FrameFault;
use its_gnvalue::{GnAddress, Mac};
use its_headers::Kind;
use std::fmt;

/// The text of a verdict on a record. Times are in nanoseconds and print in milliseconds, rounded
/// down. Other records print as their number after `#`.
#[derive(Clone, Copy)]
pub(crate) enum Text {
    /// The octets are a packet of the profile.
    Packet,
    /// They have this fault.
    Fault(FrameFault),
    /// They have this fault, which a packet outside of the profile may have.
    OutsideProfile(FrameFault),
    /// The record is cut.
    Cut,
    /// They have this fault, and may be of another source.
    NotReadFault(FrameFault),
    LinkAddresses,
    /// A packet of this kind goes to this link address.
    SentTo(Kind, Mac),
    NoLinkTarget,
    MobileBit(bool),
    NoMobile,
    /// The remaining hop limit, and the maximum.
    Hops(u8, u8),
    /// This lifetime, in milliseconds.
    Lifetime(u64),
    /// This lifetime, in milliseconds, on which the standard and the profile differ.
    LifetimeDiffers(u64),
    Number(u16),
    /// The first number comes after the second, which is in this record.
    NumberAfter(u16, u16, u64),
    NumbersNotSeen(u32),
    /// This long after this record.
    After(u64, u64),
    /// A beacon was sent this long after this record, and not before the interval in milliseconds.
    BeaconEarly(u64, u64, u32),
    /// It is made from the packet of this record.
    OfRecord(u64),
    /// The remaining hop limit, and the remaining and maximum hop limits that were received in this
    /// record.
    WrongHops(u8, u8, u8, u64),
    /// This octet isn't that of the packet of this record.
    Changed(usize, u64),
    /// No packet of this source and number was received.
    NeverReceived(GnAddress, u16),
    OfKind(Kind),
    /// A packet of this kind and source was forwarded.
    Forwarded(Kind, GnAddress),
    /// It is late: this long after this record.
    Late(u64, u64),
    NotHeard,
    /// No earlier frame of the packet was forwarded.
    FirstTime,
    /// The packet of this source and number was forwarded in this record, with this many other
    /// numbers between.
    ForwardedAgain(GnAddress, u16, u64, u32),
    /// The packet was forwarded in this record, with this many other numbers between.
    Again(u64, u32),
    /// The packet was forwarded in this record.
    ForwardedAs(u64),
    /// It was forwarded in this record, by a copy.
    ForwardedByCopy(u64),
    /// It was not forwarded within this many milliseconds.
    NotForwarded(u32),
    /// It isn't owed for this reason, in which this record counts.
    NotOwed(NotOwed, u64),
    /// This record isn't read.
    NotRead(u64),
    /// Too many packets were received to keep them all.
    TooMany,
    /// A geoanycast was forwarded outside its area.
    OutsideItsArea,
    /// A geoanycast was forwarded inside its area.
    AnycastInside,
    /// Inside its area a packet is sent to all.
    InsideToAll,
    /// Inside its area a packet is sent to this link address.
    InsideTo(Mac),
    /// Outside the area the link target of a packet isn't judged.
    OutsideArea,
    PlaceUnsure,
    /// The packet was forwarded late, so it isn't known when the station decided on it.
    DecidedLate,
}

/// A fault as its code. That of a packet has no code of the layer before it: `G9 at 10`.
#[derive(Clone, Copy)]
pub(crate) struct FormCode(pub(crate) FrameFault);

impl fmt::Display for FormCode {
    fn fmt<W: fmt::Write>(&self, f: &mut fmt::Formatter<W>) -> fmt::Result {
        match self.0 {
            FrameFault::Packet(fault) => write!(f, "{}", fault.code()),
            fault => write!(f, "{}", fault.code()),
        }
    }
}

impl fmt::Display for Text {
    fn fmt<W: fmt::Write>(&self, f: &mut fmt::Formatter<W>) -> fmt::Result {
        match *self {
            Text::Packet
            | Text::Fault(_)
            | Text::OutsideProfile(_)
            | Text::Cut
            | Text::NotReadFault(_) => self.write_form(f),
            Text::Number(_)
            | Text::NumberAfter(..)
            | Text::NumbersNotSeen(_)
            | Text::After(..)
            | Text::BeaconEarly(..) => self.write_sending(f),
            Text::OfRecord(_)
            | Text::WrongHops(..)
            | Text::Changed(..)
            | Text::NeverReceived(..)
            | Text::OfKind(_)
            | Text::Forwarded(..)
            | Text::Late(..)
            | Text::NotHeard
            | Text::FirstTime
            | Text::ForwardedAgain(..)
            | Text::Again(..)
            | Text::NotRead(_)
            | Text::TooMany => self.write_forwarding(f),
            Text::ForwardedAs(_)
            | Text::ForwardedByCopy(_)
            | Text::NotForwarded(_)
            | Text::NotOwed(..) => self.write_owed(f),
            Text::OutsideItsArea
            | Text::AnycastInside
            | Text::InsideToAll
            | Text::InsideTo(_)
            | Text::OutsideArea
            | Text::PlaceUnsure
            | Text::DecidedLate => self.write_place(f),
            _ => self.write_header(f),
        }
    }
}

impl Text {
    /// Writes a text about the form.
    fn write_form<W: fmt::Write>(&self, f: &mut fmt::Formatter<W>) -> fmt::Result {
        match *self {
            Text::Packet => f.write_str("a packet of the profile"),
            Text::Fault(fault) => write!(f, "{}", FormCode(fault)),
            Text::OutsideProfile(fault) => write!(f, "outside the profile: {}", FormCode(fault)),
            Text::NotReadFault(fault) => write!(f, "not read: {}", FormCode(fault)),
            _ => f.write_str("cut"),
        }
    }

    /// Writes a text about the headers.
    fn write_header<W: fmt::Write>(&self, f: &mut fmt::Formatter<W>) -> fmt::Result {
        match *self {
            Text::LinkAddresses => f.write_str("link addresses"),
            Text::SentTo(kind, mac) => write!(f, "a {} to {mac}", kind.word()),
            Text::NoLinkTarget => f.write_str("the link target is not in the capture"),
            Text::MobileBit(bit) => write!(f, "mobile bit {}", u8::from(bit)),
            Text::Hops(left, max) => write!(f, "hops {left} of {max}"),
            Text::Lifetime(millis) => write!(f, "lifetime {millis} ms"),
            Text::LifetimeDiffers(millis) => {
                write!(
                    f,
                    "lifetime {millis} ms: the standard and the profile differ"
                )
            }
            _ => f.write_str("mobile is not given"),
        }
    }

    /// Writes a text about numbers and beacons.
    fn write_sending<W: fmt::Write>(&self, f: &mut fmt::Formatter<W>) -> fmt::Result {
        match *self {
            Text::Number(number) => write!(f, "number {number}"),
            Text::NumberAfter(number, before, record) => {
                write!(f, "number {number} after {before} of #{record}")
            }
            Text::NumbersNotSeen(count) => write!(f, "{count} numbers were not seen"),
            Text::BeaconEarly(since, record, interval) => {
                let millis = millis(since);
                write!(
                    f,
                    "a beacon {millis} ms after #{record}, not before {interval}"
                )
            }
            Text::After(since, record) => write!(f, "{} ms after #{record}", millis(since)),
            _ => Ok(()),
        }
    }

    /// Writes a text about a packet that was forwarded.
    fn write_forwarding<W: fmt::Write>(&self, f: &mut fmt::Formatter<W>) -> fmt::Result {
        match *self {
            Text::OfRecord(record) => write!(f, "of #{record}, one hop fewer"),
            Text::WrongHops(left, received, max, record) => {
                write!(f, "hops {left}, received {received}/{max} (#{record})")
            }
            Text::Changed(octet, record) => {
                write!(f, "octet {octet} of the packet is changed (#{record})")
            }
            Text::NeverReceived(source, number) => {
                write!(f, "never received: {source} number {number}")
            }
            Text::OfKind(kind) => write!(f, "a {}", kind.word()),
            Text::Forwarded(kind, source) => {
                write!(f, "a {} of {source} was forwarded", kind.word())
            }
            Text::Late(since, record) => write!(f, "late: {} ms after #{record}", millis(since)),
            Text::NotHeard => f.write_str("never received"),
            Text::FirstTime => f.write_str("the first time"),
            Text::ForwardedAgain(source, number, record, others) => {
                write!(
                    f,
                    "again: number {number} of {source} was forwarded as #{record}, "
                )?;
                write!(f, "with {others} other numbers between")
            }
            Text::Again(record, others) => {
                write!(f, "again after #{record}, {others} other numbers between")
            }
            Text::NotRead(record) => write!(f, "not read #{record}"),
            _ => f.write_str("too many"),
        }
    }

    /// Writes a text about a packet that was received.
    fn write_owed<W: fmt::Write>(&self, f: &mut fmt::Formatter<W>) -> fmt::Result {
        match *self {
            Text::ForwardedAs(record) => write!(f, "forwarded as #{record}"),
            Text::ForwardedByCopy(record) => {
                write!(f, "forwarded as #{record}, by a copy that came beside it")
            }
            Text::NotForwarded(within) => {
                write!(f, "owed, but not forwarded within {within} ms")
            }
            Text::NotOwed(why, record) => {
                write!(f, "not owed for sure: {}", reason_of(why))?;
                if matches!(why, NotOwed::OtherPacket | NotOwed::NotRead) {
                    write!(f, " #{record}")?;
                }
                Ok(())
            }
            _ => Ok(()),
        }
    }

    /// Writes a text about a packet that depends on the position of the station.
    fn write_place<W: fmt::Write>(&self, f: &mut fmt::Formatter<W>) -> fmt::Result {
        match *self {
            Text::OutsideItsArea => f.write_str("outside its area"),
            Text::AnycastInside => f.write_str("a GAC forwarded inside its area"),
            Text::InsideToAll => f.write_str("inside the area: to all"),
            Text::InsideTo(mac) => write!(f, "inside the area, but sent to {mac}"),
            Text::OutsideArea => f.write_str("outside the area: not judged"),
            Text::DecidedLate => f.write_str("late"),
            _ => f.write_str("the place is not sure"),
        }
    }

    /// Returns the fault that it names, if it is about the form.
    pub(crate) fn code(&self) -> Option<FrameFault> {
        match *self {
            Text::Fault(fault) | Text::OutsideProfile(fault) | Text::NotReadFault(fault) => {
                Some(fault)
            }
            _ => None,
        }
    }

    /// Returns how long after another record it is, in milliseconds, if it is about time.
    pub(crate) fn millis_after(&self) -> Option<u64> {
        match *self {
            Text::After(since, _) | Text::Late(since, _) => Some(millis(since)),
            _ => None,
        }
    }

    /// Returns the other record that it names, if it names one.
    pub(crate) fn other_record(&self) -> Option<u64> {
        match *self {
            Text::NumberAfter(_, _, record)
            | Text::After(_, record)
            | Text::BeaconEarly(_, record, _)
            | Text::OfRecord(record)
            | Text::WrongHops(_, _, _, record)
            | Text::Changed(_, record)
            | Text::Late(_, record)
            | Text::ForwardedAgain(_, _, record, _)
            | Text::Again(record, _)
            | Text::ForwardedAs(record)
            | Text::ForwardedByCopy(record)
            | Text::NotOwed(NotOwed::OtherPacket | NotOwed::NotRead, record)
            | Text::NotRead(record) => Some(record),
            _ => None,
        }
    }
}

/// Why a packet isn't owed for sure.
fn reason_of(why: NotOwed) -> &'static str {
    match why {
        NotOwed::Sent => "sent",
        NotOwed::Received => "received",
        NotOwed::Delivered => "delivered",
        NotOwed::Limited => "unlimited",
        NotOwed::Buffered => "buffered",
        NotOwed::OtherForwarding => "area",
        NotOwed::NoLinkTarget => "link target",
        NotOwed::KnownBefore => "known before the capture",
        NotOwed::OtherPacket => "another packet of its number",
        NotOwed::TableFull => "table",
        NotOwed::Restarted => "restart",
        NotOwed::PlaceUnsure => "place",
        NotOwed::CaptureEnds => "the capture ends",
        NotOwed::NotRead => "not read",
    }
}

/// Nanoseconds in milliseconds, rounded down.
fn millis(nanos: u64) -> u64 {
    nanos / 1_000_000
}

/// The standard of the clauses.
const STANDARD: &str = "EN 302 636-4-1";

/// Returns the clause of a duty, if the text of a fail names one.
pub(crate) fn clause_of(duty: Duty) -> Option<&'static str> {
    match duty {
        Duty::Form | Duty::Mobile | Duty::Hops | Duty::Lifetime => Some("9"),
        Duty::LinkTarget | Duty::BeaconNotEarly => Some("10.3.6.2"),
        Duty::Numbers => Some("8.3"),
        Duty::Faithful | Duty::Forward => Some("10.3.11.3"),
        Duty::Kind => Some("10.3"),
        Duty::StopsInside => Some("10.3.12.3"),
        Duty::AreaTarget | Duty::NextHop => Some("Annex D"),
        Duty::Once => Some("Annex A"),
        Duty::InTime => None,
    }
}

/// The clause of a duty as a text names it. Two texts have the standard too.
#[derive(Clone, Copy)]
pub(crate) struct Clause(pub(crate) Duty);

impl fmt::Display for Clause {
    fn fmt<W: fmt::Write>(&self, f: &mut fmt::Formatter<W>) -> fmt::Result {
        let Some(clause) = clause_of(self.0) else {
            return Ok(());
        };
        match self.0 {
            Duty::Form | Duty::BeaconNotEarly => write!(f, " ({STANDARD}, {clause})"),
            _ => write!(f, " ({clause})"),
        }
    }
}

/// The rule of a duty: the standard and its clause.
#[derive(Clone, Copy)]
pub(crate) struct Rule(pub(crate) &'static str);

impl fmt::Display for Rule {
    fn fmt<W: fmt::Write>(&self, f: &mut fmt::Formatter<W>) -> fmt::Result {
        write!(f, "{STANDARD} {}", self.0)
    }
}
