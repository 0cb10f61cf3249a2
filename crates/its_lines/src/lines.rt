//! What a line is.

ghost use Rattle.std.specs.Prelude.{◌↔◌, IsTrue};
ghost use Rattle.its_lines.specs.Lines.{IsBlank};

/// The greatest length of a line that is read, in octets, without its line feed.
pub const LONGEST_LINE: usize = 65536;

/// Returns whether there is nothing but spaces, tabs and carriage returns.
pub(crate) fn is_blank(octets: &[u8]) -> bool
    ensures { IsTrue result ↔ IsBlank octets.now }
{
    octets.iter().all(|octet| *octet == b' ' || *octet == b'\t' || *octet == b'\r')
}
