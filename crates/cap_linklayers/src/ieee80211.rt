//! Data frames of IEEE 802.11, whose type follows LLC and SNAP.

ghost use Rattle.std.specs.Prelude.{◌≡◌, ◌+◌, ◌<◌, ◌≤◌, ◌^◌, ◌==◌, IfOk, IfErr, length, drop};
ghost use Rattle.byteorder.specs.Endian.{big_number};
ghost use Rattle.cap_linklayers.specs.Ieee80211.{IsHeader, IsHeaderFault, has_bit, is_retry_at};
ghost use Rattle.cap_linklayers.specs.Ieee80211.{is_data as is_data_control, fourth_octets, qos_octets};
ghost use Rattle.cap_linklayers.specs.Ieee80211.{header_octets, filling_octets, ht_octets};
ghost use Rattle.cap_linklayers.specs.Ieee80211.{is_gathered as is_gathered_by, snap_number};
ghost use Rattle.cap_linklayers.specs.Ieee80211.{target_of as target_among, source_of as source_among};

use crate::link::LinkFault;
use byteorder::{BigEndian, ByteOrder};

/// The octets of the frame control.
const CONTROL: usize = 2;

/// The first octet of the frame control, for data without and with QoS control: version 0, type 2.
const DATA: u16 = 0x08;

const QOS_DATA: u16 = 0x88;

/// Bits of the frame control.
const TO_DS: u16 = 0x01;

const FROM_DS: u16 = 0x02;

const MORE_FRAGMENTS: u16 = 0x04;

const RETRY: u16 = 0x08;

const PROTECTED: u16 = 0x40;

const ORDER: u16 = 0x80;

/// Addresses, from the first octet of the header.
const ADDRESS_1: usize = 4;

const ADDRESS_2: usize = 10;

const ADDRESS_3: usize = 16;

const ADDRESS_4: usize = 24;

/// The size of a header with three addresses. A fourth address follows, and QoS control.
const THREE_ADDRESSES: usize = 24;

const ADDRESS: usize = 6;

/// The sizes of QoS control and of HT control, in octets.
const QOS: usize = 2;

const HT: usize = 4;

/// The bit of QoS control for frames that are gathered (A-MSDU).
const GATHERED: u16 = 0x8000;

/// LLC with SNAP, as a number of six octets: aa, aa, 03, and the organization 000000.
const SNAP: u64 = 0xaaaa_0300_0000;

/// The size of LLC with SNAP, and of the type after them.
const LLC: usize = 6;

const TYPE: usize = 2;

/// The positions of the parts of a frame in a record.
#[derive(Clone, Copy, Debug, PartialEq, Eq)]
pub(crate) struct DataHeader {
    /// The address of the target.
    pub(crate) target: usize,
    /// The address of the source.
    pub(crate) source: usize,
    /// The type, with all that follows.
    pub(crate) kind: usize,
}

/// Reads the header that begins at this octet. If `filled`, the header has padding up to a multiple
/// of 4 octets. Returns `Short` if the record ends inside the header or before the type, and `Kind`
/// if the frame is not plain data with LLC and SNAP.
pub(crate) fn read_header(octets: &[u8], at: usize, filled: bool) -> Result<DataHeader, LinkFault>
    requires { at ≤ 65535 }
    ensures header { IfOk result (IsHeader filled octets.now at) }
    ensures fault { IfErr result (IsHeaderFault filled octets.now at) }
    ensures target { IfOk result (λ h. h.target + 6 ≤ length octets.now) }
    ensures source { IfOk result (λ h. h.source + 6 ≤ length octets.now) }
    ensures low { IfOk result (λ h. 12 ≤ h.kind) }
    ensures high { IfOk result (λ h. h.kind ≤ length octets.now) }
{
    if octets.len() < at + CONTROL {
        return Err(LinkFault::Short);
    }
    let control = control_in(octets, at);
    if !is_data(control) {
        return Err(LinkFault::Kind);
    }
    let llc = at + llc_of(control, filled);
    if octets.len() < llc + LLC + TYPE {
        return Err(LinkFault::Short);
    }
    if is_gathered(octets, at, control) || !is_snap(octets, llc) {
        return Err(LinkFault::Kind);
    }
    Ok(DataHeader {
        target: at + target_of(control),
        source: at + source_of(control),
        kind: llc + LLC,
    })
}

/// The frame control that begins at this octet.
fn control_in(octets: &[u8], at: usize) -> u16
    requires small { at ≤ 65535 }
    requires inside { at + 2 ≤ length octets.now }
    ensures { result ≡ big_number 2 (drop at octets.now) }
{
    BigEndian::read_u16(&octets[at..])
}

/// Whether this is the frame control of a data frame, plain or with QoS control, in one piece and
/// not protected.
fn is_data(control: u16) -> bool
    ensures { result ≡ is_data_control control }
{
    let kind = control / 256;
    (kind == DATA || kind == QOS_DATA)
        && !control_has(control, MORE_FRAGMENTS)
        && !control_has(control, PROTECTED)
}

/// Whether the frame control that begins at this octet has the retry bit: the frame was sent before,
/// and not acknowledged. `false` if the record ends before.
#[tactic(auto, unfolding(crate::specs::Ieee80211::retry_format, its_formats::specs::Format::number_at))]
pub(crate) fn is_retry(octets: &[u8], at: usize) -> bool
    requires { at ≤ 65535 }
    ensures { result ≡ is_retry_at octets.now at }
{
    at + CONTROL <= octets.len() && control_has(control_in(octets, at), RETRY)
}

/// Whether the octet has the bit of this value.
pub(crate) fn has(octet: u8, bit: u8) -> bool
    requires { 0 < bit }
    ensures { result ≡ has_bit bit octet }
{
    octet / bit % 2 == 1
}

/// Whether the frame control or QoS control has the bit of this value.
fn control_has(control: u16, bit: u16) -> bool
    requires { 0 < bit }
    ensures { result ≡ has_bit bit control }
{
    control / bit % 2 == 1
}

/// How many octets the fourth address has.
fn fourth_of(control: u16) -> usize
    ensures { result ≡ fourth_octets control }
{
    if control_has(control, TO_DS) && control_has(control, FROM_DS) {
        ADDRESS
    } else {
        0
    }
}

/// How many octets QoS control and HT control have.
fn controls_of(control: u16) -> usize
    ensures { result ≡ qos_octets control + ht_octets control }
{
    if control / 256 != QOS_DATA {
        return 0;
    }
    if control_has(control, ORDER) {
        QOS + HT
    } else {
        QOS
    }
}

/// Where LLC begins, from the first octet of the header.
fn llc_of(control: u16, filled: bool) -> usize
    ensures place { result ≡ header_octets control + filling_octets filled control }
    ensures above { 24 + (fourth_octets control + qos_octets control) ≤ result }
    ensures below { result ≤ 36 }
{
    let header = THREE_ADDRESSES + fourth_of(control) + controls_of(control);
    if filled { (header + 3) / 4 * 4 } else { header }
}

/// Whether several frames are gathered in this one (A-MSDU).
fn is_gathered(octets: &[u8], at: usize, control: u16) -> bool
    requires small { at ≤ 65535 }
    requires inside { at + 24 + (fourth_octets control + qos_octets control) ≤ length octets.now }
    ensures { result ≡ is_gathered_by
        (big_number (qos_octets control) (drop (at + 24 + fourth_octets control) octets.now)) }
{
    if control / 256 != QOS_DATA {
        return false;
    }
    let qos = BigEndian::read_u16(&octets[at + THREE_ADDRESSES + fourth_of(control)..]);
    control_has(qos, GATHERED)
}

/// Whether LLC with SNAP begins at this octet.
fn is_snap(octets: &[u8], at: usize) -> bool
    requires small { at ≤ 65571 }
    requires inside { at + 8 ≤ length octets.now }
    ensures { result ≡ (big_number 6 (drop at octets.now) == snap_number) }
{
    BigEndian::read_u48(&octets[at..]) == SNAP
}

/// The position of the target's address in a header, by the bits of the distribution system.
fn target_of(control: u16) -> usize
    ensures place { result ≡ target_among control 4 16 }
    ensures below { result ≤ 16 }
{
    if control_has(control, TO_DS) {
        ADDRESS_3
    } else {
        ADDRESS_1
    }
}

/// The position of the source's address in a header, by the same bits.
fn source_of(control: u16) -> usize
    ensures place { result ≡ source_among control 10 16 24 }
    ensures below { result + 6 ≤ 24 + fourth_octets control }
{
    if !control_has(control, FROM_DS) {
        return ADDRESS_2;
    }
    if control_has(control, TO_DS) {
        ADDRESS_4
    } else {
        ADDRESS_3
    }
}
