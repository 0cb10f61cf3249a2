//! The options of an interface block.

ghost use Rattle.std.specs.Prelude.{◌≡◌, ◌-◌, ◌+◌, ◌^◌, ◌<◌, ◌≤◌, IfOk, MatchResult, false};
ghost use Rattle.std.specs.Prelude.{if◌then◌else◌, Err, ◌≢◌, OnOk, IfErr, length, take};
ghost use Rattle.std.specs.Io.KnownBytes.{Consumes};
ghost use Rattle.cap_pcap.specs.Moments.{ticks_of, IsTooFine};
ghost use Rattle.cap_pcap.specs.declared.fault.SourceFault.TheVariants as faults;
ghost use Rattle.cap_pcap.specs.Interfaces.{kind_of_option, option_room, option_head, one_option};
ghost use Rattle.cap_pcap.specs.Interfaces.{options, resolution, offset, passed, is_end};
ghost use Rattle.cap_pcap.specs.Interfaces.{option_value, name, FitsName, IsNamed, resolved};
ghost use Rattle.cap_pcap.specs.Interfaces.{offset_by};
ghost use Rattle.cap_pcap.specs.Layouts.{IsAnswerOf};
ghost use Rattle.cap_pcap.specs.Reading.{is_io, IsCutShort};
ghost use Rattle.its_linkframe.specs.declared.record.CaptureFault.TheVariants as captures;

use crate::fault::SourceFault;
use crate::info::{InterfaceHead, InterfaceInfo};
use crate::interface::{Interface, ticks_in};
use crate::name::{InterfaceName, LONGEST_NAME};
use crate::octets::{Endianness, u16_at, u64_at};
use crate::transfer::{read_exact, skip};
use its_linkframe::Source;

/// The size of the code and the length of an option, which come before its value.
const HEAD: usize = 4;

/// The end of options.
const END: u16 = 0;

/// `if_name`.
const NAME: u16 = 2;

/// `if_tsresol`.
const RESOLUTION: u16 = 9;

/// `if_tsoffset`.
const OFFSET: u16 = 14;

/// What an option is.
#[derive(Clone, Copy, Debug, PartialEq, Eq)]
enum OptionKind {
    /// The end of options.
    End,
    /// The name of the interface, of this many octets.
    Name(usize),
    /// How many ticks a second has, in one octet.
    Resolution,
    /// Seconds that are added to each time, in 8 octets.
    Offset,
    /// Any other option, which is skipped.
    Other,
}

/// What is known after an option was read.
#[derive(Clone, Copy)]
struct OptionStep {
    /// How many octets of options are left.
    left: usize,
    /// The interface, by the options that were read.
    interface: Interface,
    /// Whether the option was the end of options.
    is_end: bool,
}

/// Reads the options of an interface from `room` octets. Returns how many octets follow the end of
/// options, and the interface by these options. P2 if an option goes past its block, or the ticks
/// are too fine.
pub(crate) fn read_options<S: Source>(
    source: &mut S,
    order: Endianness,
    room: usize,
    interface: Interface,
) -> Result<(usize, Interface), SourceFault>
    requires { S.failed source.old < 2 ^ 64 - 1 }
    ensures answer { IsAnswerOf (options order room interface) (S.remaining source.old)
        (S.remaining source.new) result }
    ensures counts { S.failed source.new ≡ S.failed source.old + (if is_io result then 1 else 0) }
    ensures memory { result ≢ Err (faults.Capture captures.NoMemory) }
{
    let mut left = room;
    let mut known = interface;
    while left >= HEAD {
        let turn = read_option(source, order, left, known)?;
        left = turn.left;
        known = turn.interface;
        if turn.is_end {
            return Ok((left, known));
        }
    }
    Ok((left, known))
}

/// Reads one option, if `left` octets of options are left.
fn read_option<S: Source>(
    source: &mut S,
    order: Endianness,
    left: usize,
    interface: Interface,
) -> Result<OptionStep, SourceFault>
    requires ready { S.failed source.old < 2 ^ 64 - 1 }
    requires some { HEAD ≤ left }
    ensures answer { IsAnswerOf (one_option order left interface) (S.remaining source.old)
        (S.remaining source.new) result }
    ensures less { IfOk result (λ t. t.left < left) }
    ensures counts { S.failed source.new ≡ S.failed source.old + (if is_io result then 1 else 0) }
    ensures memory { result ≢ Err (faults.Capture captures.NoMemory) }
{
    let (kind, room) = read_head(source, order, left - HEAD)?;
    let known = read_value(source, order, kind, room, interface)?;
    Ok(OptionStep {
        left: left - HEAD - room,
        interface: known,
        is_end: ends(kind),
    })
}

/// Whether an option of this kind is the end of options.
fn ends(kind: OptionKind) -> bool
    ensures { result ≡ is_end kind }
{
    match kind {
        OptionKind::End => true,
        OptionKind::Name(_) | OptionKind::Resolution | OptionKind::Offset | OptionKind::Other =>
            false,
    }
}

/// Reads the value of an option, which has `room` octets, and returns the interface by it.
fn read_value<S: Source>(
    source: &mut S,
    order: Endianness,
    kind: OptionKind,
    room: usize,
    interface: Interface,
) -> Result<Interface, SourceFault>
    requires ready { S.failed source.old < 2 ^ 64 - 1 }
    requires fits { FitsName kind }
    ensures answer { IsAnswerOf (option_value order interface kind room)
        (S.remaining source.old) (S.remaining source.new) result }
    ensures counts { S.failed source.new ≡ S.failed source.old + (if is_io result then 1 else 0) }
    ensures memory { result ≢ Err (faults.Capture captures.NoMemory) }
{
    match kind {
        OptionKind::End => Ok(interface),
        OptionKind::Name(size) => read_name(source, size, interface),
        OptionKind::Resolution => read_resolution(source, interface),
        OptionKind::Offset => read_offset(source, order, interface),
        OptionKind::Other => pass_value(source, room, interface),
    }
}

/// Skips a value. The interface stays as it is.
fn pass_value<S: Source>(
    source: &mut S,
    room: usize,
    interface: Interface,
) -> Result<Interface, SourceFault>
    requires { S.failed source.old < 2 ^ 64 - 1 }
    ensures answer { IsAnswerOf (passed room interface) (S.remaining source.old)
        (S.remaining source.new) result }
    ensures counts { S.failed source.new ≡ S.failed source.old + (if is_io result then 1 else 0) }
    ensures memory { result ≢ Err (faults.Capture captures.NoMemory) }
{
    skip(source, room)?;
    Ok(interface)
}

/// Reads the code and the length of an option. Returns its kind, and how many octets its value has
/// with the padding. P2 if these are more than `left`.
fn read_head<S: Source>(
    source: &mut S,
    order: Endianness,
    left: usize,
) -> Result<(OptionKind, usize), SourceFault>
    requires { S.failed source.old < 2 ^ 64 - 1 }
    ensures answer { IsAnswerOf (option_head order left) (S.remaining source.old)
        (S.remaining source.new) result }
    ensures fits { IfOk result (λ head. head.1 ≤ left) }
    ensures name { IfOk result (λ head. FitsName head.0) }
    ensures counts { S.failed source.new ≡ S.failed source.old + (if is_io result then 1 else 0) }
    ensures memory { result ≢ Err (faults.Capture captures.NoMemory) }
{
    let mut head = [0; HEAD];
    read_exact(source, &mut head)?;
    let code = u16_at(order, &head, 0);
    let size = u16_at(order, &head, 2);
    let room = room_of(code, size);
    if room > left {
        return Err(SourceFault::Malformed);
    }
    Ok((kind_of(code, size), room))
}

/// Returns the kind of an option by its code and its size. An option of a wrong size is `Other`, so
/// it is skipped.
fn kind_of(code: u16, size: u16) -> OptionKind
    ensures kind { result ≡ kind_of_option code size }
    ensures name { FitsName result }
{
    match (code, size) {
        (END, _) => OptionKind::End,
        (NAME, 1..=128) => OptionKind::Name(size as usize),
        (RESOLUTION, 1) => OptionKind::Resolution,
        (OFFSET, 8) => OptionKind::Offset,
        _ => OptionKind::Other,
    }
}

/// How many octets the value of an option has with its padding: a multiple of 4. The end of options
/// has no value, whatever its size.
fn room_of(code: u16, size: u16) -> usize
    ensures { result ≡ option_room code size }
{
    if code == END {
        return 0;
    }
    let size = size as usize;
    size + (4 - size % 4) % 4
}

/// Reads `size` octets to the front of the buffer.
fn fill_front<S: Source>(source: &mut S, buf: &mut [u8], size: usize) -> Result<(), SourceFault>
    requires ready { S.failed source.old < 2 ^ 64 - 1 }
    requires room { size ≤ length buf.old }
    ensures front { OnOk result
        (Consumes (S.remaining source.old) (S.remaining source.new) (take size buf.new)) }
    ensures fault { IfErr result
        (IsCutShort size (S.remaining source.old) (S.remaining source.new)) }
    ensures counts { S.failed source.new ≡ S.failed source.old + (if is_io result then 1 else 0) }
    ensures memory { result ≢ Err (faults.Capture captures.NoMemory) }
{
    read_exact(source, &mut buf[..size])
}

/// Reads a name of `size` octets, and skips its padding.
fn read_name<S: Source>(
    source: &mut S,
    size: usize,
    interface: Interface,
) -> Result<Interface, SourceFault>
    requires ready { S.failed source.old < 2 ^ 64 - 1 }
    requires short { size ≤ 128 }
    ensures answer { IsAnswerOf (name size interface) (S.remaining source.old)
        (S.remaining source.new) result }
    ensures counts { S.failed source.new ≡ S.failed source.old + (if is_io result then 1 else 0) }
    ensures memory { result ≢ Err (faults.Capture captures.NoMemory) }
{
    let mut octets = [0; LONGEST_NAME];
    fill_front(source, &mut octets, size)?;
    skip(source, (4 - size % 4) % 4)?;
    Ok(Interface {
        number: interface.number,
        info: named(interface.info, octets, size),
        snap: interface.snap,
        ticks: interface.ticks,
    })
}

/// Returns the ticks of a second, by the octet of `if_tsresol`. P2 if they are too fine.
fn ticks_said(octet: u8) -> Result<u64, SourceFault>
    ensures ticks { MatchResult result
        (λ n. (n ≡ ticks_of octet) × ¬ IsTooFine octet)
        (λ f. (f ≡ faults.Malformed) × IsTooFine octet) }
    ensures some { IfOk result (λ n. 0 < n) }
    ensures counts { is_io result ≡ false }
    ensures memory { result ≢ Err (faults.Capture captures.NoMemory) }
{
    match ticks_in(octet) {
        Some(ticks) => Ok(ticks),
        None => Err(SourceFault::Malformed),
    }
}

/// Reads `if_tsresol`, and skips its padding.
fn read_resolution<S: Source>(
    source: &mut S,
    interface: Interface,
) -> Result<Interface, SourceFault>
    requires { S.failed source.old < 2 ^ 64 - 1 }
    ensures answer { IsAnswerOf (resolution interface) (S.remaining source.old)
        (S.remaining source.new) result }
    ensures counts { S.failed source.new ≡ S.failed source.old + (if is_io result then 1 else 0) }
    ensures memory { result ≢ Err (faults.Capture captures.NoMemory) }
{
    let mut octet = [0; 1];
    read_exact(source, &mut octet)?;
    let ticks = ticks_said(octet[0])?;
    skip(source, 3)?;
    Ok(Interface {
        number: interface.number,
        info: with_resolution(interface.info, octet[0]),
        snap: interface.snap,
        ticks,
    })
}

/// `if_tsoffset`.
fn read_offset<S: Source>(
    source: &mut S,
    order: Endianness,
    interface: Interface,
) -> Result<Interface, SourceFault>
    requires { S.failed source.old < 2 ^ 64 - 1 }
    ensures answer { IsAnswerOf (offset order interface) (S.remaining source.old)
        (S.remaining source.new) result }
    ensures counts { S.failed source.new ≡ S.failed source.old + (if is_io result then 1 else 0) }
    ensures memory { result ≢ Err (faults.Capture captures.NoMemory) }
{
    let mut octets = [0; 8];
    read_exact(source, &mut octets)?;
    Ok(Interface {
        number: interface.number,
        info: with_offset(interface.info, u64_at(order, &octets)),
        snap: interface.snap,
        ticks: interface.ticks,
    })
}

/// Returns this information with a name of `size` octets.
fn named(info: InterfaceInfo, octets: [u8; LONGEST_NAME], size: usize) -> InterfaceInfo
    requires { size ≤ 128 }
    ensures { IsNamed info (take size octets) result }
{
    InterfaceInfo {
        head: info.head,
        layer: info.layer,
        name: Some(InterfaceName { octets, size }),
    }
}

/// Returns this information with this octet of `if_tsresol`.
fn with_resolution(info: InterfaceInfo, resolution: u8) -> InterfaceInfo
    ensures { result ≡ resolved info resolution }
{
    InterfaceInfo {
        head: InterfaceHead {
            link: info.head.link,
            resolution,
            offset: info.head.offset,
        },
        layer: info.layer,
        name: info.name,
    }
}

/// Returns this information with these seconds of `if_tsoffset`.
fn with_offset(info: InterfaceInfo, offset: u64) -> InterfaceInfo
    ensures { result ≡ offset_by info offset }
{
    InterfaceInfo {
        head: InterfaceHead {
            link: info.head.link,
            resolution: info.head.resolution,
            offset,
        },
        layer: info.layer,
        name: info.name,
    }
}
