//! The duties of a station that are judged.

ghost use Rattle.std.specs.Prelude.{◌≡◌};
ghost use Rattle.its_duties.specs.Duties.{number_of};
ghost use Rattle.its_duties.specs.Roles.{is_for_area, is_beacon_kind, is_anycast_kind};
ghost use Rattle.its_duties.specs.Roles.{is_own_duty, is_relay_duty, is_asked};

use crate::role::Role;
use its_headers::Kind;

/// A duty: a rule that a record of the capture obeys or breaks (EN 302 636-4-1).
#[derive(Clone, Copy, Debug, PartialEq, Eq)]
pub enum Duty {
    /// An own packet is one (clause 9).
    Form,
    /// An own beacon or single-hop broadcast goes to all (10.3.6.2, 10.3.10.2).
    LinkTarget,
    /// An own packet has the mobile bit of its station (clause 9).
    Mobile,
    /// An own packet has all its hops left (clause 9).
    Hops,
    /// An own packet has a lifetime in range (clause 9).
    Lifetime,
    /// Own packets for areas count their sequence numbers (8.3).
    Numbers,
    /// A beacon waits after an own packet (10.3.6.2).
    BeaconNotEarly,
    /// An own packet for an area goes where the rules of forwarding say (Annex D, E.2).
    AreaTarget,
    /// A forwarded packet is one that was received, with one hop fewer (10.3.11.3, 10.3.12.3).
    Faithful,
    /// Only packets for areas are forwarded (10.3).
    Kind,
    /// A packet is forwarded once (Annex A).
    Once,
    /// A packet is forwarded in time.
    InTime,
    /// A geoanycast goes no further once it is inside of its area (10.3.12.3).
    StopsInside,
    /// A forwarded packet goes where the rules of forwarding say (Annex D, E.2).
    NextHop,
    /// A packet that was accepted is forwarded (10.3.11.3).
    Forward,
}

impl Duty {
    /// The number that lines show after the letter D.
    pub fn number(self) -> u8
        ensures { result ≡ number_of self }
    {
        match self {
            Duty::Form => 1,
            Duty::LinkTarget => 2,
            Duty::Mobile => 3,
            Duty::Hops => 4,
            Duty::Lifetime => 5,
            Duty::Numbers => 6,
            Duty::BeaconNotEarly => 10,
            Duty::AreaTarget => 12,
            Duty::Faithful => 13,
            Duty::Kind => 14,
            Duty::Once => 15,
            Duty::InTime => 16,
            Duty::StopsInside => 17,
            Duty::NextHop => 19,
            Duty::Forward => 20,
        }
    }

    /// Whether the duty is asked of a record with this role, and with a packet of this kind if it is
    /// read. For a packet that was heard, and for one that was forwarded, another verdict may be a
    /// reason not to ask.
    pub fn is_asked(self, role: Role, kind: Option<Kind>) -> bool
        ensures { result ≡ is_asked self role kind }
    {
        match role {
            Role::Own => is_own_duty(self, kind),
            Role::Forwarded => is_relay_duty(self, kind),
            Role::SentUnread => matches!(self, Duty::Form),
            Role::Heard => matches!(self, Duty::Forward) && is_for_area(kind),
            Role::SentOther | Role::Unread | Role::Untyped | Role::Other => false,
        }
    }
}

/// Whether the duty is one of an own packet of this kind.
fn is_own_duty(duty: Duty, kind: Option<Kind>) -> bool
    ensures { result ≡ is_own_duty duty kind }
{
    match duty {
        Duty::Form | Duty::LinkTarget | Duty::Mobile | Duty::Hops | Duty::Lifetime => true,
        Duty::Numbers | Duty::AreaTarget => is_for_area(kind),
        Duty::BeaconNotEarly => is_beacon_kind(kind),
        Duty::Faithful
        | Duty::Kind
        | Duty::Once
        | Duty::InTime
        | Duty::StopsInside
        | Duty::NextHop
        | Duty::Forward => false,
    }
}

/// Whether the duty is one of a packet of this kind that was forwarded.
fn is_relay_duty(duty: Duty, kind: Option<Kind>) -> bool
    ensures { result ≡ is_relay_duty duty kind }
{
    match duty {
        Duty::Kind => true,
        Duty::Faithful | Duty::Once | Duty::InTime | Duty::NextHop => is_for_area(kind),
        Duty::StopsInside => is_anycast_kind(kind),
        Duty::Form
        | Duty::LinkTarget
        | Duty::Mobile
        | Duty::Hops
        | Duty::Lifetime
        | Duty::Numbers
        | Duty::BeaconNotEarly
        | Duty::AreaTarget
        | Duty::Forward => false,
    }
}

/// Whether a packet of this kind has an area and a sequence number.
fn is_for_area(kind: Option<Kind>) -> bool
    ensures { result ≡ is_for_area kind }
{
    match kind {
        Some(Kind::Gbc | Kind::Gac) => true,
        Some(Kind::Beacon | Kind::Shb) | None => false,
    }
}

/// Whether it is a beacon.
fn is_beacon_kind(kind: Option<Kind>) -> bool
    ensures { result ≡ is_beacon_kind kind }
{
    match kind {
        Some(Kind::Beacon) => true,
        Some(Kind::Shb | Kind::Gbc | Kind::Gac) | None => false,
    }
}

/// Whether it is a geoanycast.
fn is_anycast_kind(kind: Option<Kind>) -> bool
    ensures { result ≡ is_anycast_kind kind }
{
    match kind {
        Some(Kind::Gac) => true,
        Some(Kind::Beacon | Kind::Shb | Kind::Gbc) | None => false,
    }
}
