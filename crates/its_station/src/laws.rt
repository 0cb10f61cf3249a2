//! Laws of the definitions, each a function whose contract is the law.

ghost use Rattle.std.specs.Prelude.{◌≡◌, ℕ, List};
ghost use Rattle.its_headers.specs.Encoding.{IsBytes};
ghost use Rattle.its_model.specs.Calls.{Call};
ghost use Rattle.its_station.specs.Receiving.{IsFrameCall};

use its_linkframe::laws::{one_frame, one_frame_fault};

/// Octets that come are one call of the model at most: the frame of one packet on the air, or junk
/// with one first fault.
pub fn one_call()
    ensures { (octets : List ℕ) (call other : Call) → IsBytes octets
        → IsFrameCall octets call → IsFrameCall octets other → call ≡ other }
{
    // Laws, for the proof alone.
    one_frame();
    one_frame_fault();
}
