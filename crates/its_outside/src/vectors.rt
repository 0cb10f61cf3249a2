//! Position vectors and areas (EN 302 636-4-1 clause 9).

ghost use Rattle.std.specs.Prelude.{◌≡◌, ◌<◌, ◌≤◌, ◌+◌, ◌^◌, ◌%◌};
ghost use Rattle.its_gnvalue.specs.Values.{IsSpeed};
ghost use Rattle.its_formats.specs.Format.{Gives};
ghost use Rattle.its_headers.specs.Format.{walk};
ghost use Rattle.its_headers.specs.Layout.{speed_of};
ghost use Rattle.its_outside.specs.Layout.{long_format, short_format, area_format};
ghost use Rattle.its_outside.specs.Layout.{sequence_format};

use crate::fields::{AreaFields, LongVector, Sequence, ShortVector};
use crate::octets::{u16_at, u32_at, u64_at};
use its_faults::Fault;
use its_geometry::Shape;

/// The bit of position accuracy, above those of the speed.
const ACCURATE: u16 = 0x8000;

/// Reads the long position vector that begins at this octet.
#[tactic(auto, unfolding(crate::specs::Layout::long_format))]
pub(crate) fn read_long(octets: &[u8], at: usize) -> Result<LongVector, Fault>
    requires { at ≤ 100 }
    ensures { Gives (λ v. (v, at + 8 + 4 + 4 + 4 + 2 + 2)) result (walk long_format at octets.now) }
{
    let address = u64_at(octets, at)?;
    let timestamp = u32_at(octets, at + 8)?;
    let latitude = u32_at(octets, at + 8 + 4)?.cast_signed();
    let longitude = u32_at(octets, at + 8 + 4 + 4)?.cast_signed();
    let motion = u16_at(octets, at + 8 + 4 + 4 + 4)?;
    let heading = u16_at(octets, at + 8 + 4 + 4 + 4 + 2)?;
    Ok(LongVector {
        address,
        timestamp,
        latitude,
        longitude,
        accurate: motion >= ACCURATE,
        speed: speed_of(motion % ACCURATE),
        heading,
    })
}

/// The speed of which 15 bits are the two's complement.
fn speed_of(bits: u16) -> i16
    requires { bits < 2 ^ 15 }
    ensures { result ≡ speed_of bits }
{
    if bits < 0x4000 {
        bits as i16
    } else {
        -((ACCURATE - bits) as i16)
    }
}

/// Reads the short position vector that begins at this octet.
#[tactic(auto, unfolding(crate::specs::Layout::short_format))]
pub(crate) fn read_short(octets: &[u8], at: usize) -> Result<ShortVector, Fault>
    requires { at ≤ 100 }
    ensures { Gives (λ v. (v, at + 8 + 4 + 4 + 4)) result (walk short_format at octets.now) }
{
    let address = u64_at(octets, at)?;
    let timestamp = u32_at(octets, at + 8)?;
    let latitude = u32_at(octets, at + 8 + 4)?.cast_signed();
    let longitude = u32_at(octets, at + 8 + 4 + 4)?.cast_signed();
    Ok(ShortVector {
        address,
        timestamp,
        latitude,
        longitude,
    })
}

/// Reads the sequence number, and the reserved octets after it, that begin at this octet.
#[tactic(auto, unfolding(crate::specs::Layout::sequence_format))]
pub(crate) fn read_sequence(octets: &[u8], at: usize) -> Result<Sequence, Fault>
    requires { at ≤ 100 }
    ensures { Gives (λ s. (s, at + 2 + 2)) result (walk sequence_format at octets.now) }
{
    let number = u16_at(octets, at)?;
    let reserved = u16_at(octets, at + 2)?;
    Ok(Sequence { number, reserved })
}

/// Reads the area of this shape, and the reserved octets after it, that begin at this octet.
#[tactic(auto, unfolding(crate::specs::Layout::area_format))]
pub(crate) fn read_area(octets: &[u8], at: usize, shape: Shape) -> Result<AreaFields, Fault>
    requires { at ≤ 100 }
    ensures { Gives (λ a. (a, at + 4 + 4 + 2 + 2 + 2 + 2)) result
        (walk (area_format shape) at octets.now) }
{
    let latitude = u32_at(octets, at)?.cast_signed();
    let longitude = u32_at(octets, at + 4)?.cast_signed();
    let a = u16_at(octets, at + 4 + 4)?;
    let b = u16_at(octets, at + 4 + 4 + 2)?;
    let angle = u16_at(octets, at + 4 + 4 + 2 + 2)?;
    let reserved = u16_at(octets, at + 4 + 4 + 2 + 2 + 2)?;
    Ok(AreaFields {
        shape,
        latitude,
        longitude,
        a,
        b,
        angle,
        reserved,
    })
}
