//! Packets that go on, with one hop fewer.

ghost use Rattle.std.specs.Prelude.{◌≡◌, ◌≤◌, ◌<◌, ◌-◌, length, IfOk, IsOk, OnErr};
ghost use Rattle.its_headers.specs.Encoding.{encoding};
ghost use Rattle.its_headers.specs.Written.{WritesEncoding};

use crate::view::PacketView;
use crate::wire::fields::{HOPS_LEFT, write_octets};
use its_gnvalue::NoRoom;

/// Writes the packet that was read, with one hop fewer left, at the beginning of the slice, and
/// returns its length. The packet has to have at least two hops left. Its other octets stay.
/// The rest of the slice stays; on `NoRoom`, exactly where the slice is too short, all of it does.
pub fn relay_into(view: &PacketView<'_>, out: &mut [u8]) -> Result<usize, NoRoom>
    requires { 2 ≤ view.now.left }
    ensures written { IfOk result
        (λ n. WritesEncoding view.now.pdu (view.now.left - 1) out.old out.new n) }
    ensures room { length (encoding view.now.pdu view.now.left) ≤ length out.old → IsOk result }
    ensures no_room { OnErr result ((out.new ≡ out.old)
        × (length out.old < length (encoding view.now.pdu view.now.left))) }
{
    let octets = view.octets();
    if out.len() < octets.len() {
        return Err(NoRoom);
    }
    write_octets(out, 0, octets);
    out[HOPS_LEFT] = octets[HOPS_LEFT] - 1;
    Ok(octets.len())
}
