//! The extended headers and the whole packet (EN 302 636-4-1 clause 9).

ghost use Rattle.std.specs.Prelude.{◌≡◌, ◌≤◌, IfOk};
ghost use Rattle.its_formats.specs.Format.{Gives};
ghost use Rattle.its_headers.specs.Format.{walk};
ghost use Rattle.its_geometry.specs.declared.area.Shape.TheVariants.{Circle};
ghost use Rattle.its_outside.specs.declared.kind.StandardKind.TheVariants as kinds;
ghost use Rattle.its_outside.specs.Layout.{extended_format, standard_format};

use crate::fields::{ExtendedFields, Fields, LongVector};
use crate::headers::{read_basic, read_common};
use crate::kind::StandardKind;
use crate::octets::{octets_at, u32_at, u64_at};
use crate::vectors::{read_area, read_long, read_sequence, read_short};
use its_faults::Fault;
use its_geometry::Shape;

/// Where the extended header begins.
const EXTENDED: usize = 12;

/// The long position vector after a sequence number.
const NUMBERED_VECTOR: usize = 16;

/// What follows a long position vector at the beginning of the extended header.
const AFTER_VECTOR: usize = 36;

/// What follows a sequence number and a long position vector.
const AFTER_NUMBERED: usize = 40;

/// Where an address at `AFTER_NUMBERED` ends.
const ADDRESS_END: usize = 48;

/// Where an area at `AFTER_NUMBERED` ends.
const AREA_END: usize = 56;

/// Where a short position vector at `AFTER_NUMBERED` ends.
const SHORT_END: usize = 60;

/// What an extended header says, and where it ends.
#[derive(Clone, Copy)]
struct ExtendedRead {
    source: LongVector,
    fields: ExtendedFields,
    end: usize,
}

/// Reads the extended header of a packet of this kind, for this shape.
fn read_extended(octets: &[u8], kind: StandardKind, shape: Shape) -> Result<ExtendedRead, Fault>
    ensures place { IfOk result (λ x. x.end ≤ 60) }
    ensures reading { Gives (λ x. ((x.source, x.fields), x.end)) result
        (walk (extended_format kind shape) 12 octets.now) }
{
    match kind {
        StandardKind::Beacon => read_beacon(octets),
        StandardKind::Guc => read_guc(octets),
        StandardKind::Gac => read_gac(octets, shape),
        StandardKind::Gbc => read_gbc(octets, shape),
        StandardKind::Shb => read_shb(octets),
        StandardKind::Tsb => read_tsb(octets),
        StandardKind::LsRequest => read_request(octets),
        StandardKind::LsReply => read_reply(octets),
    }
}

/// Reads the extended header of a BEACON.
#[tactic(auto, using(its_formats::proofs::Walks::walk_after))]
fn read_beacon(octets: &[u8]) -> Result<ExtendedRead, Fault>
    ensures place { IfOk result (λ x. x.end ≤ 60) }
    ensures reading { Gives (λ x. ((x.source, x.fields), x.end)) result
        (walk (extended_format kinds.Beacon Circle) 12 octets.now) }
{
    let source = read_long(octets, EXTENDED)?;
    Ok(ExtendedRead {
        source,
        fields: ExtendedFields::Beacon,
        end: AFTER_VECTOR,
    })
}

/// Reads the extended header of a GUC.
#[tactic(auto, using(its_formats::proofs::Walks::walk_after))]
fn read_guc(octets: &[u8]) -> Result<ExtendedRead, Fault>
    ensures place { IfOk result (λ x. x.end ≤ 60) }
    ensures reading { Gives (λ x. ((x.source, x.fields), x.end)) result
        (walk (extended_format kinds.Guc Circle) 12 octets.now) }
{
    let sequence = read_sequence(octets, EXTENDED)?;
    let source = read_long(octets, NUMBERED_VECTOR)?;
    let destination = read_short(octets, AFTER_NUMBERED)?;
    Ok(ExtendedRead {
        source,
        fields: ExtendedFields::Guc(sequence, destination),
        end: SHORT_END,
    })
}

/// Reads the extended header of a GAC for this shape.
#[tactic(auto, using(its_formats::proofs::Walks::walk_after))]
fn read_gac(octets: &[u8], shape: Shape) -> Result<ExtendedRead, Fault>
    ensures place { IfOk result (λ x. x.end ≤ 60) }
    ensures reading { Gives (λ x. ((x.source, x.fields), x.end)) result
        (walk (extended_format kinds.Gac shape) 12 octets.now) }
{
    let sequence = read_sequence(octets, EXTENDED)?;
    let source = read_long(octets, NUMBERED_VECTOR)?;
    let area = read_area(octets, AFTER_NUMBERED, shape)?;
    Ok(ExtendedRead {
        source,
        fields: ExtendedFields::Gac(sequence, area),
        end: AREA_END,
    })
}

/// Reads the extended header of a GBC for this shape.
#[tactic(auto, using(its_formats::proofs::Walks::walk_after))]
fn read_gbc(octets: &[u8], shape: Shape) -> Result<ExtendedRead, Fault>
    ensures place { IfOk result (λ x. x.end ≤ 60) }
    ensures reading { Gives (λ x. ((x.source, x.fields), x.end)) result
        (walk (extended_format kinds.Gbc shape) 12 octets.now) }
{
    let sequence = read_sequence(octets, EXTENDED)?;
    let source = read_long(octets, NUMBERED_VECTOR)?;
    let area = read_area(octets, AFTER_NUMBERED, shape)?;
    Ok(ExtendedRead {
        source,
        fields: ExtendedFields::Gbc(sequence, area),
        end: AREA_END,
    })
}

/// Reads the extended header of an SHB.
#[tactic(auto, using(its_formats::proofs::Walks::walk_after))]
fn read_shb(octets: &[u8]) -> Result<ExtendedRead, Fault>
    ensures place { IfOk result (λ x. x.end ≤ 60) }
    ensures reading { Gives (λ x. ((x.source, x.fields), x.end)) result
        (walk (extended_format kinds.Shb Circle) 12 octets.now) }
{
    let source = read_long(octets, EXTENDED)?;
    let media = u32_at(octets, AFTER_VECTOR)?;
    Ok(ExtendedRead {
        source,
        fields: ExtendedFields::Shb(media),
        end: AFTER_NUMBERED,
    })
}

/// Reads the extended header of a TSB.
#[tactic(auto, using(its_formats::proofs::Walks::walk_after))]
fn read_tsb(octets: &[u8]) -> Result<ExtendedRead, Fault>
    ensures place { IfOk result (λ x. x.end ≤ 60) }
    ensures reading { Gives (λ x. ((x.source, x.fields), x.end)) result
        (walk (extended_format kinds.Tsb Circle) 12 octets.now) }
{
    let sequence = read_sequence(octets, EXTENDED)?;
    let source = read_long(octets, NUMBERED_VECTOR)?;
    Ok(ExtendedRead {
        source,
        fields: ExtendedFields::Tsb(sequence),
        end: AFTER_NUMBERED,
    })
}

/// Reads the extended header of a request of the location service.
#[tactic(auto, using(its_formats::proofs::Walks::walk_after))]
fn read_request(octets: &[u8]) -> Result<ExtendedRead, Fault>
    ensures place { IfOk result (λ x. x.end ≤ 60) }
    ensures reading { Gives (λ x. ((x.source, x.fields), x.end)) result
        (walk (extended_format kinds.LsRequest Circle) 12 octets.now) }
{
    let sequence = read_sequence(octets, EXTENDED)?;
    let source = read_long(octets, NUMBERED_VECTOR)?;
    let sought = u64_at(octets, AFTER_NUMBERED)?;
    Ok(ExtendedRead {
        source,
        fields: ExtendedFields::LsRequest(sequence, sought),
        end: ADDRESS_END,
    })
}

/// Reads the extended header of a reply of the location service.
#[tactic(auto, using(its_formats::proofs::Walks::walk_after))]
fn read_reply(octets: &[u8]) -> Result<ExtendedRead, Fault>
    ensures place { IfOk result (λ x. x.end ≤ 60) }
    ensures reading { Gives (λ x. ((x.source, x.fields), x.end)) result
        (walk (extended_format kinds.LsReply Circle) 12 octets.now) }
{
    let sequence = read_sequence(octets, EXTENDED)?;
    let source = read_long(octets, NUMBERED_VECTOR)?;
    let destination = read_short(octets, AFTER_NUMBERED)?;
    Ok(ExtendedRead {
        source,
        fields: ExtendedFields::LsReply(sequence, destination),
        end: SHORT_END,
    })
}

/// Reads the packet that begins the octets: its fields, its payload, and where it ends, or the
/// first fault. Each field is checked together with those before it, in the order of the wire.
#[tactic(auto, using(its_formats::proofs::Walks::walk_after))]
pub(crate) fn read_standard(octets: &[u8]) -> Result<(Fields, &[u8], usize), Fault>
    ensures { Gives (λ x. (record { fields = x.0; payload = x.1.now }, x.2)) result
        (walk standard_format 0 octets.now) }
{
    let basic = read_basic(octets)?;
    let common = read_common(octets, basic.left)?;
    let extended = read_extended(octets, common.kind, common.shape)?;
    let payload = octets_at(octets, extended.end, common.length as usize)?;
    let fields = Fields {
        basic,
        common: common.fields,
        source: extended.source,
        extended: extended.fields,
    };
    Ok((fields, payload, extended.end + common.length as usize))
}
