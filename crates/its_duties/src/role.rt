//! What a record of a capture is to the station.

ghost use Rattle.std.specs.Prelude.{◌≡◌, ◌⊎◌, ◌&&◌, ◌||◌, Bool, not, is_none};
ghost use Rattle.its_duties.specs.Seen.{Seen, IsRead, IsUnread, is_number, is_for_it, is_judged_on};
ghost use Rattle.its_duties.specs.Roles.{IsRecord, role_of, role_by, is_longer, may_be_longer};
ghost use Rattle.its_duties.specs.Roles.{has_type, is_geonetworking_in, is_secured_in};
ghost use Rattle.its_duties.specs.Roles.{link_target_in, sent_role, sender_role, unread_role};
ghost use Rattle.its_duties.specs.Roles.{receiver_role_by, is_unread_role};
ghost use Rattle.its_duties.specs.Seen.{named_source};
ghost use Rattle.its_duties.specs.Heard.{may_be_own, may_be_relay};

use crate::claims::Claims;
use crate::form::is_named;
use crate::octets::{named_source, octet_at, u16_at, u48_at};
use byteorder::{BigEndian, ByteOrder};
use its_faults::FrameFault;
use its_gnvalue::{GnAddress, Mac};
use its_linkframe::PACKET;

/// Where the link addresses and the type of a frame are.
const TARGET: u8 = 0;

const SOURCE: u8 = 6;

const TYPE: u8 = 12;

/// The type of GeoNetworking.
const GEONETWORKING: u16 = 0x8947;

/// The first octet of a secured packet: version 1, and the next header 2.
const SECURED: u8 = 0x12;

/// What a record is to the station.
#[derive(Clone, Copy, Debug, PartialEq, Eq)]
pub enum Role {
    /// A packet of its own.
    Own,
    /// A packet of another source that it forwarded.
    Forwarded,
    /// It sent it, and it isn't read.
    SentUnread,
    /// It sent it, and it is of another type than GeoNetworking.
    SentOther,
    /// A frame that it may have received.
    Heard,
    /// It may have processed it, though it isn't read.
    Unread,
    /// Not even addresses and type are read: it may have sent it or processed it.
    Untyped,
    /// Nothing to it.
    Other,
}

/// What was read of the octets of a record.
#[derive(Clone, Copy, Debug, PartialEq, Eq)]
pub enum FrameSource {
    /// They are a frame, with a packet of this source.
    Frame(GnAddress),
    /// They are no frame, for this fault, or they are cut.
    NoFrame(FrameFault),
}

/// What is known of a record besides its octets.
#[derive(Clone, Copy, Debug, PartialEq, Eq)]
pub struct RecordFacts {
    /// The number of its interface in the capture.
    pub interface: u32,
    /// The capture doesn't have all octets of the frame.
    pub cut: bool,
    /// The capture has the link target.
    pub known_target: bool,
    /// What was read of its octets.
    pub frame: FrameSource,
}

/// Returns what a record is to the station. `octets`: those of the frame as Ethernet has them: link
/// target, link source, type and packet. A record of which not even the link addresses are read has
/// none, and is cut.
///
/// - `role`: it is the first of the roles that the record has.
/// - `unread`: if the station may have processed the record though it isn't read, it is `Unread` or
///   `Untyped`.
pub fn role_of(claims: &Claims, facts: &RecordFacts, octets: &[u8]) -> Role
    ensures role { (r : Seen) → IsRecord facts.now octets.now r
        → result ≡ role_of claims.now r (may_be_longer facts.now.frame) }
    ensures unread { (r : Seen) → IsRecord facts.now octets.now r → IsRead r → IsUnread claims.now r
        → (result ≡ Role.Unread) ⊎ (result ≡ Role.Untyped) }
{
    role_by(claims, facts, octets)
}

/// Returns whether a record with this role may be a packet of the station's own that isn't read: it
/// names the station as its source, or it names none.
///
/// - `role`: it is so of each record that has this role and these octets.
pub fn may_be_own(claims: &Claims, role: Role, octets: &[u8]) -> bool
    ensures value { result
        ≡ (is_unread_role role && (is_number claims.now.address (named_source octets.now)
        || is_none (named_source octets.now))) }
    ensures role { (r : Seen) (longer : Bool) → role ≡ role_of claims.now r longer
        → octets.now ≡ r.octets → result ≡ may_be_own claims.now r }
{
    may_be_own_of(claims, role, octets)
}

/// The same by its octets.
fn may_be_own_of(claims: &Claims, role: Role, octets: &[u8]) -> bool
    ensures { result
        ≡ (is_unread_role role && (is_number claims.now.address (named_source octets.now)
        || is_none (named_source octets.now))) }
{
    is_unread_role(role) && (is_named(claims.address, octets) || named_source(octets).is_none())
}

/// Returns whether a record with this role may be a packet that the station forwarded and that isn't
/// read: it names another source, or it names none.
///
/// - `role`: it is so of each record that has this role and these octets.
pub fn may_be_relay(claims: &Claims, role: Role, octets: &[u8]) -> bool
    ensures value { result
        ≡ (is_unread_role role && not (is_number claims.now.address (named_source octets.now))) }
    ensures role { (r : Seen) (longer : Bool) → role ≡ role_of claims.now r longer
        → octets.now ≡ r.octets → result ≡ may_be_relay claims.now r }
{
    may_be_relay_of(claims, role, octets)
}

/// The same by its octets.
fn may_be_relay_of(claims: &Claims, role: Role, octets: &[u8]) -> bool
    ensures { result
        ≡ (is_unread_role role && not (is_number claims.now.address (named_source octets.now))) }
{
    is_unread_role(role) && !is_named(claims.address, octets)
}

/// Whether the station may have sent a record with this role that isn't read.
fn is_unread_role(role: Role) -> bool
    ensures { result ≡ is_unread_role role }
{
    match role {
        Role::SentUnread | Role::Untyped => true,
        Role::Own | Role::Forwarded | Role::SentOther | Role::Heard | Role::Unread | Role::Other =>
            false,
    }
}

/// What a record is.
fn role_by(claims: &Claims, facts: &RecordFacts, octets: &[u8]) -> Role
    ensures { result ≡ role_by claims.now facts.now octets.now }
{
    if facts.cut && !has_type(octets) {
        return Role::Untyped;
    }
    if is_mac(claims.mac, u48_at(octets, SOURCE)) {
        return sender_role(claims, facts, octets);
    }
    if !is_for_it(claims.mac, link_target(facts, octets)) {
        return Role::Other;
    }
    receiver_role(claims, facts, octets)
}

/// What a record with the station's link source is.
fn sender_role(claims: &Claims, facts: &RecordFacts, octets: &[u8]) -> Role
    ensures { result ≡ sender_role claims.now facts.now octets.now }
{
    if !is_judged_on(claims.interface, facts.interface) {
        return Role::Other;
    }
    if !is_geonetworking(octets) {
        return Role::SentOther;
    }
    sent_role(claims.address, facts.frame)
}

/// What a frame that the station sent is.
fn sent_role(address: GnAddress, frame: FrameSource) -> Role
    ensures { result ≡ sent_role address frame }
{
    match frame {
        FrameSource::Frame(source) => {
            if source == address {
                return Role::Own;
            }
            Role::Forwarded
        }
        FrameSource::NoFrame(_) => Role::SentUnread,
    }
}

/// What a record of another sender is that is for the station.
fn receiver_role(claims: &Claims, facts: &RecordFacts, octets: &[u8]) -> Role
    ensures { result ≡ receiver_role_by claims.now facts.now octets.now facts.now.frame }
{
    match facts.frame {
        FrameSource::Frame(source) => {
            if source == claims.address {
                return Role::Other;
            }
            Role::Heard
        }
        FrameSource::NoFrame(fault) => unread_role(claims, facts, octets, fault),
    }
}

/// What such a record is that isn't read.
fn unread_role(claims: &Claims, facts: &RecordFacts, octets: &[u8], fault: FrameFault) -> Role
    ensures { result ≡ unread_role claims.now facts.now octets.now fault }
{
    if !is_geonetworking(octets) {
        return Role::Other;
    }
    if !claims.profile || facts.cut || is_secured(octets) || is_longer(fault) {
        return Role::Unread;
    }
    Role::Other
}

/// Whether octets that are no frame for this fault may begin with one.
fn is_longer(fault: FrameFault) -> bool
    ensures { result ≡ is_longer fault }
{
    match fault {
        FrameFault::TooLong | FrameFault::Trailing => true,
        FrameFault::Short | FrameFault::EtherType | FrameFault::Packet(_) => false,
    }
}

/// Whether the octets have link addresses and type.
fn has_type(octets: &[u8]) -> bool
    ensures { result ≡ has_type octets.now }
{
    PACKET <= octets.len()
}

/// Whether the octets are a secured packet.
fn is_secured(octets: &[u8]) -> bool
    ensures { result ≡ is_secured_in octets.now }
{
    match octet_at(octets, PACKET) {
        Some(first) => first == SECURED,
        None => false,
    }
}

/// Whether the type of the octets is that of GeoNetworking.
fn is_geonetworking(octets: &[u8]) -> bool
    ensures { result ≡ is_geonetworking_in octets.now }
{
    match u16_at(octets, TYPE) {
        Some(found) => found == GEONETWORKING,
        None => false,
    }
}

/// Whether the station's own frames are judged on this interface.
fn is_judged_on(judged: Option<u32>, interface: u32) -> bool
    ensures { result ≡ is_judged_on judged interface }
{
    match judged {
        Some(judged) => interface == judged,
        None => true,
    }
}

/// The link target, if the capture has it.
fn link_target(facts: &RecordFacts, octets: &[u8]) -> Option<u64>
    ensures { result ≡ link_target_in facts.now octets.now }
{
    if facts.known_target {
        return u48_at(octets, TARGET);
    }
    None
}

/// Whether a frame with this link target is for the station, or for all; or the capture doesn't
/// say.
fn is_for_it(mac: Mac, target: Option<u64>) -> bool
    ensures { result ≡ is_for_it mac target }
{
    match target {
        Some(target) => target == number_of(mac) || target == number_of(Mac::BROADCAST),
        None => true,
    }
}

/// Whether it is this link address.
fn is_mac(mac: Mac, found: Option<u64>) -> bool
    ensures { result ≡ is_number mac found }
{
    match found {
        Some(found) => found == number_of(mac),
        None => false,
    }
}

/// The number of a link address.
fn number_of(mac: Mac) -> u64
    ensures { result ≡ mac }
{
    BigEndian::read_u48(&mac.octets())
}
