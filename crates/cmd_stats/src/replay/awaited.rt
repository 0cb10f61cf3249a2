//! Frames that the written rules send, and that the station under test may still send.

ghost use Rattle.std.specs.Prelude.{◌≡◌, ◌<◌, ◌≤◌, ℕ, length, drop, position, IfSome};
ghost use Rattle.cmd_stats.specs.Comparing.{has_same_number, is_of_packet, is_same};
ghost use Rattle.cmd_stats.specs.Comparing.{missed_place, packet_place, same_place};

use cap_records::reads_secured;

/// Where parts of a frame are: the link source, the type, the message of a secured packet, the
/// sequence number of an unsecured one for an area, its source, and what follows.
const LINK_SOURCE: usize = 6;

const TYPE: usize = 12;

const PACKET: usize = 14;

const MESSAGE: usize = 18;

const NUMBER: usize = 26;

const NUMBER_END: usize = 28;

const SOURCE: usize = 30;

const SOURCE_END: usize = 38;

/// A frame that the written rules send.
#[derive(Debug, Drop)]
pub struct Awaited {
    /// Its number.
    pub number: u64,
    /// The last time at which the station under test may send it, in milliseconds.
    pub due: u64,
    /// Its octets.
    pub octets: Vec<u8>,
}

/// Returns the index of the first of these frames that equals what was sent, except for the link
/// source.
pub(crate) fn place_of_same(awaited: &[Awaited], sent: &[u8]) -> Option<usize>
    ensures place { result ≡ same_place sent.now awaited.now }
    ensures within { IfSome result (λ place. place < length awaited.now) }
{
    awaited
        .iter()
        .position(|frame| is_same(frame.octets.as_slice(), sent))
}

/// Returns the index of the first of these frames that has the packet which was sent.
pub(crate) fn place_of_packet(awaited: &[Awaited], sent: &[u8]) -> Option<usize>
    ensures place { result ≡ packet_place sent.now awaited.now }
    ensures within { IfSome result (λ place. place < length awaited.now) }
{
    awaited
        .iter()
        .position(|frame| is_of_packet(frame.octets.as_slice(), sent))
}

/// Returns the index of the first of these frames whose time was over before `now`.
pub(crate) fn place_of_missed(awaited: &[Awaited], now: u64) -> Option<usize>
    ensures place { result ≡ missed_place now awaited.now }
    ensures within { IfSome result (λ place. place < length awaited.now) }
{
    awaited.iter().position(|frame| frame.due < now)
}

/// Whether two frames are equal in all octets except those of the link source.
fn is_same(owed: &[u8], sent: &[u8]) -> bool
    ensures { result ≡ is_same owed.now sent.now }
{
    if owed.len() < TYPE {
        return false;
    }
    if sent.len() < TYPE {
        return false;
    }
    if owed[..LINK_SOURCE] != sent[..LINK_SOURCE] {
        return false;
    }
    octets_after(owed, TYPE) == octets_after(sent, TYPE)
}

/// Whether two frames have the same packet for an area: the same type, sequence number and source.
/// Secured frames have to have the same message.
fn is_of_packet(owed: &[u8], sent: &[u8]) -> bool
    ensures { result ≡ is_of_packet owed.now sent.now }
{
    if owed.len() < SOURCE_END {
        return false;
    }
    if sent.len() < SOURCE_END {
        return false;
    }
    if owed[TYPE..PACKET] != sent[TYPE..PACKET] {
        return false;
    }
    if reads_secured(true, owed) {
        return octets_after(owed, MESSAGE) == octets_after(sent, MESSAGE);
    }
    has_same_number(owed, sent)
}

/// Whether two frames have the same sequence number and source, at their positions in an unsecured
/// packet for an area.
fn has_same_number(owed: &[u8], sent: &[u8]) -> bool
    requires owed { 38 ≤ length owed.now }
    requires sent { 38 ≤ length sent.now }
    ensures { result ≡ has_same_number owed.now sent.now }
{
    if owed[NUMBER..NUMBER_END] != sent[NUMBER..NUMBER_END] {
        return false;
    }
    owed[SOURCE..SOURCE_END] == sent[SOURCE..SOURCE_END]
}

/// Returns the octets from this position on.
fn octets_after(octets: &[u8], place: usize) -> &[u8]
    requires { place ≤ length octets.now }
    ensures { result.now ≡ drop place octets.now }
{
    octets.split_at(place).1
}
