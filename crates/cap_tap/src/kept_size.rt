//! How many octets are kept of a frame of the capture.

ghost use Rattle.std.specs.Prelude.{◌≡◌};
ghost use Rattle.cap_tap.specs.Sizes.{kept_size};

/// How many octets the stamp of a repeat has.
pub(crate) const STAMP: usize = 8;

/// How many octets are kept of a frame with so many octets and repeats.
pub(crate) fn kept_size(octets: usize, repeats: usize) -> usize
    ensures { result ≡ kept_size octets repeats }
{
    octets.saturating_add(repeats.saturating_mul(STAMP))
}
