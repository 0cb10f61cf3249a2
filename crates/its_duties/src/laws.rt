//! Laws of the definitions, each a function whose contract is the law.

ghost use Rattle.std.specs.Prelude.{◌≡◌, ℕ, Bool, List, Some, slice_get, IsTrue, IsFalse};
ghost use Rattle.its_model.specs.Packet.{Transmission};
ghost use Rattle.its_model.specs.History.{is_remembered};
ghost use Rattle.its_model.specs.Calls.Call.{Receive};
ghost use Rattle.its_model.specs.Station.{StationModel, station_step};
ghost use Rattle.its_model.specs.World.{frame_of};
ghost use Rattle.its_duties.specs.declared.claims.Claims.{Claims};
ghost use Rattle.its_duties.specs.declared.duty.Duty.{Duty};
ghost use Rattle.its_duties.specs.Seen.{Seen, AreRead};
ghost use Rattle.its_duties.specs.Duties.{IsModelled, IsRelayRecord, NoScenario};
ghost use Rattle.its_duties.specs.Forwarding.{is_packet};
ghost use Rattle.its_duties.specs.Fails.{FailOf};
ghost use Rattle.its_duties.specs.Roles.{role_of, kind_seen, is_asked};
ghost use Rattle.its_duties.specs.Wire.{IsPair, IsWire, IsMet, IsNew, IsReady, IsRemembered};
ghost use Rattle.its_duties.specs.Wire.{NoneFails};

/// A record of a tap that fails a duty is in no tap that a scenario explains. The claims are those of
/// a station of the model.
pub fn a_fail_is_proof()
    ensures { (d : Duty) (k : Claims) (tap : List Seen) (i : ℕ) → AreRead tap → IsModelled k
        → FailOf d k tap i → NoScenario k tap }
{}

/// A record that fails a duty fails one that is asked of records with its role and kind
/// (`Duty::is_asked`). So nothing is left out by asking only these.
pub fn nothing_is_left_out()
    ensures { (d : Duty) (k : Claims) (tap : List Seen) (i : ℕ) (r : Seen) (longer : Bool)
        → AreRead tap → slice_get tap i ≡ Some r → FailOf d k tap i
        → (asked : Duty) × IsTrue (is_asked asked (role_of k r longer) (kind_seen r.frame))
        × FailOf asked k tap i }
{}

/// On a wire (`IsWire`) a packet for an area is received, and the station is one of the model that
/// has room for its source. What the capture has then is what this station gives, or a duty fails.
///
/// - `missing`: the number is new, and the station forwards the packet. If no frame is in the
///   capture, the packet was owed.
/// - `another`: the number isn't remembered. If a frame is in the capture that the station doesn't
///   give, not all duties hold of it.
/// - `again`: the number was forwarded before, so near that it is remembered. If a frame is in the
///   capture, not all duties hold of it.
pub fn a_wire_is_decided()
    ensures missing { (k : Claims) (tap : List Seen) (i : ℕ) (r : Seen) (t f : Transmission)
        (n moment : ℕ) (s : StationModel) → AreRead tap → IsWire k tap → IsMet k tap i r t n
        → IsNew k tap i r t n → IsReady k s t.pdu.vector.address moment
        → frame_of (station_step s moment (Receive t)).answer ≡ Some f
        → ((j : ℕ) (q : Seen) → slice_get tap j ≡ Some q
        → IsTrue (is_packet t.pdu.vector.address n q) → IsPair k r q → ⊥)
        → FailOf Duty.Forward k tap i }
    ensures another { (k : Claims) (tap : List Seen) (i j : ℕ) (r q : Seen) (t g : Transmission)
        (n moment : ℕ) (s : StationModel) → AreRead tap → IsModelled k → IsWire k tap
        → IsMet k tap i r t n → IsReady k s t.pdu.vector.address moment
        → IsFalse (is_remembered s.remember t.pdu.vector.address n moment s.history)
        → IsRelayRecord k tap j q g → IsPair k r q
        → (frame_of (station_step s moment (Receive t)).answer ≡ Some g → ⊥)
        → NoneFails k tap j → ⊥ }
    ensures again { (k : Claims) (tap : List Seen) (i j : ℕ) (r q : Seen) (t g : Transmission)
        (n : ℕ) → IsWire k tap → IsMet k tap i r t n → IsRelayRecord k tap j q g → IsPair k r q
        → IsRemembered k tap j t.pdu.vector.address n q → NoneFails k tap j → ⊥ }
{}
