//! Radiotap headers, which captures of IEEE 802.11 have before each frame.

ghost use Rattle.std.specs.Prelude.{◌≡◌, ◌<◌, ◌≤◌, ◌+◌, ◌*◌, ℕ, IfOk, IfErr, IfSome, IfNone, length};
ghost use Rattle.std.specs.Prelude.{slice_index, true, Ok};
ghost use Rattle.cap_linklayers.specs.LinkFormats.{walk};
ghost use Rattle.cap_linklayers.specs.Radiotap.{IsRadiotap, IsRadiotapFault, IsLastWord, IsEndless};
ghost use Rattle.cap_linklayers.specs.Radiotap.{IsThere, length_of, flags_at, rate_at, rate_end};
ghost use Rattle.cap_linklayers.specs.Radiotap.{channel_end, signal_at, IsRate, IsRetryBehind, IsSignal};
ghost use Rattle.cap_linklayers.specs.Radiotap.{has_flags, radiotap_format};
ghost use Rattle.cap_linklayers.specs.declared.link.LinkFault.TheVariants as faults;

use crate::ieee80211::{has, is_retry};
use crate::link::LinkFault;
use byteorder::{ByteOrder, LittleEndian};

/// The one version, in the first octet.
const VERSION: u8 = 0;

/// The position of the header's length, and the position after it.
const LENGTH: usize = 2;

const LENGTH_END: usize = 4;

/// Where the first present word begins, and its end: the least length of a header.
const PRESENT: usize = 4;

const LEAST: usize = 8;

/// The size of a present word, in octets. Its last octet has its bit 31.
const WORD: usize = 4;

const LAST_OCTET: usize = 7;

const NEXT: u8 = 0x80;

/// Bits of the first present word, in its first octet: TSFT, the flags, the rate, the channel,
/// hopping, and the signal at the antenna.
const TSFT: u8 = 0x01;

const FLAGS: u8 = 0x02;

const RATE: u8 = 0x04;

const CHANNEL: u8 = 0x08;

const HOPPING: u8 = 0x10;

const SIGNAL: u8 = 0x20;

/// The size of TSFT, which begins at a multiple of its size.
const TSFT_OCTETS: usize = 8;

/// The flag of a record that ends with a check sequence.
pub(crate) const CHECK_SEQUENCE: u8 = 0x10;

/// The flag of a header of IEEE 802.11 that has padding up to a multiple of 4 octets.
pub(crate) const FILLED: u8 = 0x20;

/// What is read from a header.
#[derive(Clone, Copy, Debug, PartialEq, Eq)]
pub(crate) struct RadiotapHeader {
    /// How many octets it has.
    pub(crate) length: usize,
    /// Its flags, or 0 if it has none.
    pub(crate) flags: u8,
}

/// Reads the header at the beginning of a record. Returns `Short` if the record ends inside the
/// header. Returns `Kind` if the header has another version, ends before the end of its first
/// present word, or announces flags that are not inside it.
pub(crate) fn read_radiotap(octets: &[u8]) -> Result<RadiotapHeader, LinkFault>
    ensures header { IfOk result (IsRadiotap octets.now) }
    ensures fault { IfErr result (IsRadiotapFault octets.now) }
    ensures inside { IfOk result (λ h. h.length ≤ length octets.now) }
    ensures bound { IfOk result (λ h. h.length ≤ 65535) }
{
    if octets.is_empty() {
        return Err(LinkFault::Short);
    }
    if octets[0] != VERSION {
        return Err(LinkFault::Kind);
    }
    if octets.len() < LENGTH_END {
        return Err(LinkFault::Short);
    }
    let length = usize::from(LittleEndian::read_u16(&octets[LENGTH..]));
    if length < LEAST {
        return Err(LinkFault::Kind);
    }
    if octets.len() < length {
        return Err(LinkFault::Short);
    }
    if !has(octets[PRESENT], FLAGS) {
        return Ok(RadiotapHeader { length, flags: 0 });
    }
    match flags_place(octets, length) {
        Some(place) => Ok(RadiotapHeader {
            length,
            flags: octets[place],
        }),
        None => Err(LinkFault::Kind),
    }
}

/// The position of the flags, if they are inside the header.
fn flags_place(octets: &[u8], size: usize) -> Option<usize>
    requires there { IsThere octets.now }
    requires size { size ≡ length_of octets.now }
    requires bound { size ≤ 65535 }
    ensures some { IfSome result (λ place. has_flags (slice_index octets.now 4) ≡ true
        → walk radiotap_format octets.now ≡ Ok (slice_index octets.now place, size)) }
    ensures none { IfNone result (has_flags (slice_index octets.now 4) ≡ true
        → IsRadiotapFault octets.now faults.Kind) }
    ensures inside { IfSome result (λ place. place < size) }
{
    let word = last_word(octets, size)?;
    let place = first_field(octets, word);
    if place < size { Some(place) } else { None }
}

/// Where the first field after the last present word and TSFT begins. These are the flags, if there
/// are any.
fn first_field(octets: &[u8], word: usize) -> usize
    requires there { 8 ≤ length octets.now }
    requires bound { word ≤ 65535 }
    ensures place { result ≡ flags_at (slice_index octets.now 4) (8 + 4 * word) }
    ensures below { result ≤ 8 + 4 * word + 15 }
{
    let behind = LEAST + WORD * word;
    if has(octets[PRESENT], TSFT) {
        (behind + 7) / TSFT_OCTETS * TSFT_OCTETS + TSFT_OCTETS
    } else {
        behind
    }
}

/// Returns the rate in units of 500 kbit/s, if the header has one.
pub(crate) fn rate_of(octets: &[u8]) -> Option<u8>
    ensures { IsRate octets.now result }
{
    let size = size_of(octets)?;
    if !has(octets[PRESENT], RATE) {
        return None;
    }
    let word = last_word(octets, size)?;
    let place = rate_place(octets, word);
    if place < size {
        Some(octets[place])
    } else {
        None
    }
}

/// Returns the signal at the antenna in dBm, if the header has one: the first, if there are several.
pub(crate) fn signal_of(octets: &[u8]) -> Option<i8>
    ensures { IsSignal octets.now result }
{
    let size = size_of(octets)?;
    if !has(octets[PRESENT], SIGNAL) {
        return None;
    }
    let word = last_word(octets, size)?;
    let place = signal_place(octets, word);
    if place < size {
        Some(octets[place].cast_signed())
    } else {
        None
    }
}

/// Whether the header of IEEE 802.11 after this one has the retry bit. `false` if one of them is
/// missing.
pub(crate) fn is_retry_behind(octets: &[u8]) -> bool
    ensures { IsRetryBehind octets.now result }
{
    match size_of(octets) {
        Some(size) => is_retry(octets, size),
        None => false,
    }
}

/// How many octets the header has, if all of them are there.
fn size_of(octets: &[u8]) -> Option<usize>
    ensures there { IfSome result (λ size. IsThere octets.now × (size ≡ length_of octets.now)) }
    ensures bound { IfSome result (λ size. size ≤ 65535) }
    ensures none { IfNone result (¬ IsThere octets.now) }
{
    if octets.len() < LENGTH_END || octets[0] != VERSION {
        return None;
    }
    let size = usize::from(LittleEndian::read_u16(&octets[LENGTH..]));
    if size < LEAST || octets.len() < size {
        return None;
    }
    Some(size)
}

/// The position of the rate, or the position where it would be.
fn rate_place(octets: &[u8], word: usize) -> usize
    requires there { 8 ≤ length octets.now }
    requires bound { word ≤ 65535 }
    ensures place { result ≡ rate_at (slice_index octets.now 4) (8 + 4 * word) }
    ensures below { result ≤ 8 + 4 * word + 16 }
{
    let place = first_field(octets, word);
    if has(octets[PRESENT], FLAGS) {
        place + 1
    } else {
        place
    }
}

/// Where the fields end that come before the channel.
fn rate_ending(octets: &[u8], word: usize) -> usize
    requires there { 8 ≤ length octets.now }
    requires bound { word ≤ 65535 }
    ensures place { result ≡ rate_end (slice_index octets.now 4) (8 + 4 * word) }
    ensures below { result ≤ 8 + 4 * word + 17 }
{
    let place = rate_place(octets, word);
    if has(octets[PRESENT], RATE) {
        place + 1
    } else {
        place
    }
}

/// Where the fields end that come before hopping.
fn channel_ending(octets: &[u8], word: usize) -> usize
    requires there { 8 ≤ length octets.now }
    requires bound { word ≤ 65535 }
    ensures place { result ≡ channel_end (slice_index octets.now 4) (8 + 4 * word) }
    ensures below { result ≤ 8 + 4 * word + 22 }
{
    let place = rate_ending(octets, word);
    if has(octets[PRESENT], CHANNEL) {
        (place + 1) / 2 * 2 + 4
    } else {
        place
    }
}

/// The position of the signal at the antenna, or the position where it would be.
fn signal_place(octets: &[u8], word: usize) -> usize
    requires there { 8 ≤ length octets.now }
    requires bound { word ≤ 65535 }
    ensures place { result ≡ signal_at (slice_index octets.now 4) (8 + 4 * word) }
{
    let place = channel_ending(octets, word);
    if has(octets[PRESENT], HOPPING) {
        (place + 1) / 2 * 2 + 2
    } else {
        place
    }
}

/// The last present word, the first being 0, if the header has its end.
fn last_word(octets: &[u8], size: usize) -> Option<usize>
    requires size { size ≤ length octets.now }
    requires bound { size ≤ 65535 }
    ensures last { IfSome result (IsLastWord octets.now) }
    ensures inside { IfSome result (λ n. 8 + 4 * n ≤ size) }
    ensures none { IfNone result (IsEndless octets.now size) }
{
    let mut word = 0;
    while LEAST + WORD * word <= size {
        if !has(octets[LAST_OCTET + WORD * word], NEXT) {
            return Some(word);
        }
        word += 1;
    }
    None
}
