//! The media-dependent data of a single-hop broadcast (EN 302 636-4-1 clause 9).

ghost use Rattle.std.specs.Prelude.{◌≡◌, ◌≤◌, length, take, drop};
ghost use Rattle.its_headers.specs.Encoding.{IsMedia};
ghost use Rattle.its_headers.specs.Puts.{Puts};

use crate::wire::fields::{MEDIA, write_octets};
use crate::wire::octets::{Head, Octets};

/// The media-dependent data, which was checked to be there.
pub(crate) fn media_in<H: Head>(octets: &Octets<'_, H>) -> [u8; 4]
    requires { 40 ≤ length octets.now }
    ensures { result ≡ take 4 (drop 36 octets.now) }
{
    let mut media = [0; 4];
    media.copy_from_slice(&octets.behind(MEDIA)[..4]);
    media
}

/// Writes the media-dependent data, four octets.
pub(crate) fn write_media(out: &mut [u8], media: [u8; 4])
    requires { 40 ≤ length out.old }
    ensures puts { Puts out.old out.new 36 media }
    ensures fits { IsMedia media }
{
    write_octets(out, MEDIA, &media);
}
