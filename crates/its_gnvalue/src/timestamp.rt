//! Which of two timestamps is newer.

ghost use Rattle.std.specs.Prelude.{◌≡◌};
ghost use Rattle.its_gnvalue.specs.Values.{is_newer};

/// Whether timestamp `a` is newer than `b`: ahead of it by 1 to 2^31 - 1 ms, counted modulo 2^32.
/// At a difference of exactly 2^31 neither is newer (profile).
pub fn newer(a: u32, b: u32) -> bool
    ensures { result ≡ is_newer a b }
{
    let ahead = a.wrapping_sub(b);
    0 < ahead && ahead < 1 << 31
}
