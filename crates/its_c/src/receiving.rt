//! The calls that take a frame, or a beginning of octets that is one.

ghost use Rattle.std.specs.Prelude.{◌≡◌, ◌≢◌, ℕ, pos, List};
ghost use Rattle.its_linkframe.specs.Frames.{EncodesFrame};
ghost use Rattle.its_linkframe.specs.Padding.{IsFrameEnd, IsUnpadded};
ghost use Rattle.its_linkframe.specs.Secured.{Verified, EncodesVerified};
ghost use Rattle.its_model.specs.Packet.{Transmission};
ghost use Rattle.its_model.specs.Station as stations;
ghost use Rattle.its_model.specs.Station.{verdict};
ghost use Rattle.its_station.specs.Receiving.{TakesMemory};
ghost use Rattle.its_unit.specs.Unit.{UnitModel};
ghost use Rattle.its_c.specs.Held.{IsSame};
ghost use Rattle.its_c.specs.Life.{CallStep};
ghost use Rattle.its_c.specs.Life.HandleCall.{Receive, ReceiveVerified};
ghost use Rattle.its_c.specs.Open.{HoldsUnit};
ghost use Rattle.its_c.specs.Told.{nothing_received};

use crate::handle::Geostation;
use crate::layout::Reception;
use crate::status::NO_ROOM;
use crate::told::{told_received, told_refused};
use its_linkframe::{
    LONGEST_FRAME, LONGEST_SECURED_FRAME, Unpadded, VerifiedFrame, frame_length, read_unpadded,
};
use its_unit::Limiting;
use std::alloc::Global;

/// How many of the octets are a frame: its length if a beginning of them is a frame (there is one
/// at most), otherwise 0.
#[unsafe(no_mangle)]
pub extern "C" fn geostation_frame_length(octets: &[u8]) -> usize
    ensures found { result ≢ 0 → IsFrameEnd octets.now result }
    ensures only { (n : ℕ) → IsFrameEnd octets.now n → result ≡ n }
{
    frame_length(octets)
}

/// Takes the octets that came, and writes their outcome; the frame that forwards the packet is
/// written into `relay`, if the limits let it pass. A packet that was delivered before is neither
/// delivered nor forwarded again, and the reception says so. If at most 60 octets begin with a
/// frame, the zeros after it are left out: Ethernet fills a short frame up with them. Refused
/// by `NO_ROOM` for a buffer under 1468 octets, for its moment (S1, S2), for octets that are no frame
/// (S3), whose fault the reception has, for a table that is full (S4), and for memory (S5).
#[unsafe(no_mangle)]
pub extern "C" fn geostation_receive(
    alloc: Global,
    s: &mut Geostation,
    now: u64,
    frame: &[u8],
    reception: &mut Reception,
    relay: &mut [u8],
) -> i32
    ensures step { CallStep (Receive now frame.now relay.old result reception.new relay.new)
        s.old s.new }
    ensures unchanged { result ≢ pos 0 → IsSame s.old s.new }
    ensures nothing { result ≢ pos 0 → result ≢ pos 3 → reception.new ≡ nothing_received }
    ensures memory { result ≡ pos 5 → (w : List ℕ) × IsUnpadded frame.now w
        × (t : Transmission) × EncodesFrame t w
        × ((u : UnitModel) → HoldsUnit s.old.held.unit u →
        (verdict u.station now t ≡ stations.Verdict.Accept) × TakesMemory u.station now t) }
{
    *reception = Reception::NOTHING;
    if relay.len() < LONGEST_FRAME {
        return NO_ROOM;
    }
    let Unpadded { octets, frame } = read_unpadded(frame);
    match frame {
        Ok(view) => {
            let mut unit = s.held.take(alloc);
            let said = unit.receive_frame(Limiting::Within, now, octets, &view);
            s.held.put(unit);
            told_received(said, &view.packet, octets, reception, relay)
        }
        Err(fault) => {
            let mut unit = s.held.take(alloc);
            let refused = unit.refuse_frame(now, fault);
            s.held.put(unit);
            told_refused(refused, reception)
        }
    }
}

/// Processes a secured frame with the plain part that a security entity verified of its message,
/// and writes the result, as `geostation_receive` does for the packet that they are. A payload lies
/// in the plain part. The secured frame in which the packet goes on is written
/// into `relay`, if the limits let it pass. Refused by `NO_ROOM` for a buffer under 2310 octets, for
/// its moment (S1, S2), for octets that are no secured frame or with the plain part no packet (S3),
/// whose fault the reception has, for a table that is full (S4), and for memory (S5).
#[unsafe(no_mangle)]
pub extern "C" fn geostation_receive_verified(
    alloc: Global,
    s: &mut Geostation,
    now: u64,
    frame: &[u8],
    plain: &[u8],
    reception: &mut Reception,
    relay: &mut [u8],
) -> i32
    ensures step { CallStep
        (ReceiveVerified now frame.now plain.now relay.old result reception.new relay.new)
        s.old s.new }
    ensures unchanged { result ≢ pos 0 → IsSame s.old s.new }
    ensures nothing { result ≢ pos 0 → result ≢ pos 3 → reception.new ≡ nothing_received }
    ensures memory { result ≡ pos 5 → (v : Verified) × EncodesVerified v frame.now plain.now
        × ((u : UnitModel) → HoldsUnit s.old.held.unit u →
        (verdict u.station now v.frame ≡ stations.Verdict.Accept)
        × TakesMemory u.station now v.frame) }
{
    *reception = Reception::NOTHING;
    if relay.len() < LONGEST_SECURED_FRAME {
        return NO_ROOM;
    }
    match VerifiedFrame::read(frame, plain) {
        Ok(verified) => {
            let mut unit = s.held.take(alloc);
            let said = unit.receive_frame(Limiting::Within, now, frame, &verified);
            s.held.put(unit);
            told_received(said, verified.packet(), plain, reception, relay)
        }
        Err(fault) => {
            let mut unit = s.held.take(alloc);
            let refused = unit.refuse_secured(now, fault);
            s.held.put(unit);
            told_refused(refused, reception)
        }
    }
}
