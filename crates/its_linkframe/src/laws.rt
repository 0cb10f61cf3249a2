//! Laws of the definitions, each a function whose contract is the law.

ghost use Rattle.std.specs.Prelude.{◌≡◌, ◌≢◌, ◌<◌, ◌^◌, ℕ, List, IsTrue};
ghost use Rattle.its_gnvalue.specs.Values.{broadcast};
ghost use Rattle.its_model.specs.Packet.{Transmission};
ghost use Rattle.its_faults.specs.declared.frame.FrameFault.{FrameFault};
ghost use Rattle.its_headers.specs.Encoding.{IsBytes};
ghost use Rattle.its_linkframe.specs.Captures.{Captured, EncodesCapture};
ghost use Rattle.its_linkframe.specs.Copies.{Sendable, is_copy, is_sent_again, octets_of};
ghost use Rattle.its_linkframe.specs.Copies.{sent_like};
ghost use Rattle.its_linkframe.specs.FrameFaults.{IsFrameFault};
ghost use Rattle.its_linkframe.specs.Frames.{EncodesFrame};

/// Octets are a capture of one list of records at most.
pub fn one_capture()
    ensures { (records others : List Captured) (w : List ℕ) → EncodesCapture records w
        → EncodesCapture others w
        → records ≡ others }
{}

/// Octets are the frame of one packet on the air at most.
pub fn one_frame()
    ensures { (t u : Transmission) (w : List ℕ) → EncodesFrame t w → EncodesFrame u w → t ≡ u }
{}

/// Octets have a fault exactly where they are no frame, and never two.
pub fn one_frame_fault()
    ensures none { (t : Transmission) (w : List ℕ) (f : FrameFault) → IsBytes w → EncodesFrame t w
        → IsFrameFault w f → ⊥ }
    ensures some { (w : List ℕ) → IsBytes w → ((t : Transmission) → EncodesFrame t w → ⊥)
        → (f : FrameFault) × IsFrameFault w f }
    ensures one { (w : List ℕ) (f g : FrameFault) → IsBytes w → IsFrameFault w f → IsFrameFault w g
        → f ≡ g }
{}

/// Octets are a copy of other octets exactly where what they say is sent again: the same, secured
/// or not, to all, from another link address than the station's own, but for link sender and
/// lifetime.
pub fn copies_are_sent_again()
    ensures { (own : ℕ) (held heard : Sendable) → own < 2 ^ 48 → heard.frame.link_target < 2 ^ 48
        → heard.frame.link_source < 2 ^ 48
        → is_copy own (octets_of held) (octets_of heard) ≡ is_sent_again own held heard }
{}

/// A copy of an unsecured frame says what the frame says, but for link sender and lifetime. It is
/// to all, and from another link address than the station's own.
pub fn copies_say_the_same()
    ensures { (own : ℕ) (t u : Transmission) (w v : List ℕ) → EncodesFrame t w → EncodesFrame u v
        → IsTrue (is_copy own w v)
        → (u.link_target ≡ broadcast) × (u.link_source ≢ own) × (t ≡ sent_like t u) }
{}
