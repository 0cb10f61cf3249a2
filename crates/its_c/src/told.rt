//! What a call tells C: its status, and what it writes into the caller's buffers.

ghost use Rattle.std.specs.Prelude.{◌≡◌, ◌≢◌, ◌≤◌, pos, length, Ok, Err, IfOk, IfSome, IsOk, IsErr};
ghost use Rattle.its_station.specs.Receiving.{DeliversEndOf, HandsOutEndOf, SendsAtMost};
ghost use Rattle.its_unit.specs.Steps.{WherePassed};
ghost use Rattle.its_c.specs.Status.{status_in, status_of, status_sent};
ghost use Rattle.its_c.specs.Told.{Holds, ShowsFrame, ShowsBeacon, ShowsHanded, ShowsReceived};
ghost use Rattle.its_c.specs.Told.{IsHeard, IsBesides, ShowsUnit, number_of, refused_reception};
ghost use Rattle.its_c.specs.Told.{nothing_received, reception_of, with_reaction};

use crate::fault::FaultNumbers;
use crate::layout::Reception;
use crate::reading::kind_number;
use crate::status::{OK, status_of, status_of_unsent};
use its_headers::{Head, PacketView};
use its_station::{Handed, Outcome, Refused, Why};
use its_unit::{Reaction, UnitOutcome, Unsent};

/// The status of a call that tells nothing else.
pub(crate) fn told(said: Result<(), Refused>) -> i32
    ensures status { result ≡ status_in said }
    ensures memory { result ≡ pos 5 → said ≡ Err Refused.NoMemory }
{
    match said {
        Ok(()) => OK,
        Err(refused) => status_of(refused),
    }
}

/// The status of a call that sends; its frame is written.
pub(crate) fn told_frame(
    said: Result<Vec<u8>, Unsent>,
    frame: &mut [u8],
    written: &mut usize,
) -> i32
    requires nothing { written.old ≡ 0 }
    requires room { 1468 ≤ length frame.old }
    requires short { IfOk said (λ sent. length sent.items ≤ 1468) }
    ensures status { result ≡ status_sent said }
    ensures shown { ShowsFrame written.new frame.new said }
    ensures memory { result ≡ pos 5 → said ≡ Err (Unsent.Refused Refused.NoMemory) }
    ensures rate { result ≡ pos 22 → said ≡ Err Unsent.OverRate }
    ensures done { result ≡ pos 0 → IsOk said }
    ensures failed { result ≢ pos 0 → IsErr said }
{
    match said {
        Ok(octets) => {
            *written = hand_out(octets.as_slice(), frame);
            OK
        }
        Err(unsent) => status_of_unsent(unsent),
    }
}

/// The status of a call that may send a beacon; its frame is written.
pub(crate) fn told_beacon(
    said: Result<Option<Vec<u8>>, Refused>,
    frame: &mut [u8],
    written: &mut usize,
) -> i32
    requires nothing { written.old ≡ 0 }
    requires room { 1468 ≤ length frame.old }
    requires short { IfOk said (λ beacon. IfSome beacon (λ sent. length sent.items ≤ 1468)) }
    ensures status { result ≡ status_in said }
    ensures shown { ShowsBeacon written.new frame.new said }
    ensures memory { result ≡ pos 5 → said ≡ Err Refused.NoMemory }
{
    match said {
        Ok(Some(octets)) => {
            *written = hand_out(octets.as_slice(), frame);
            OK
        }
        Ok(None) => OK,
        Err(refused) => status_of(refused),
    }
}

/// The status of a call that may release a frame; the frame is written.
pub(crate) fn told_release(
    said: Result<Option<Vec<u8>>, Refused>,
    frame: &mut [u8],
    written: &mut usize,
) -> i32
    requires nothing { written.old ≡ 0 }
    requires short { IfOk said (λ sent. IfSome sent (λ w. length w.items ≤ length frame.old)) }
    ensures status { result ≡ status_in said }
    ensures shown { ShowsBeacon written.new frame.new said }
    ensures memory { result ≡ pos 5 → said ≡ Err Refused.NoMemory }
    ensures failed { result ≢ pos 0 → IsErr said }
{
    match said {
        Ok(Some(octets)) => {
            *written = hand_out(octets.as_slice(), frame);
            OK
        }
        Ok(None) => OK,
        Err(refused) => status_of(refused),
    }
}

/// The status of a call that receives a frame with this packet. If the frame isn't refused, its
/// outcome is written into `reception`, of which each field is 0 before.
#[inline(always)]
pub(crate) fn told_received<H: Head>(
    said: Result<Reaction<'_>, Refused>,
    packet: &PacketView<'_, H>,
    frame: &[u8],
    reception: &mut Reception,
    relay: &mut [u8],
) -> i32
    requires nothing { reception.old ≡ nothing_received }
    requires end { IfOk said (λ r. WherePassed (DeliversEndOf frame.now) r.outcome) }
    requires short { IfOk said (λ r. WherePassed (SendsAtMost (length relay.old)) r.outcome) }
    ensures status { result ≡ status_in said.entry }
    ensures shown { ShowsReceived frame.now (reception_of packet.now) reception.new relay.new
        said.entry }
    ensures memory { result ≡ pos 5 → said.entry ≡ Err Refused.NoMemory }
    ensures done { result ≡ pos 0 → IsOk said.entry }
{
    match said {
        Ok(reaction) => {
            tell_packet(packet, reception);
            tell_reaction(reaction, frame, reception, relay);
            OK
        }
        Err(refused) => told_refused(refused, reception),
    }
}

/// The status of a call that receives a frame, which is refused. The fault of octets that are no
/// frame is written into `reception`, of which each field is 0 before.
pub(crate) fn told_refused(refused: Refused, reception: &mut Reception) -> i32
    requires { reception.old ≡ nothing_received }
    ensures status { result ≡ status_of refused }
    ensures shown { reception.new ≡ refused_reception refused }
    ensures memory { result ≡ pos 5 → refused ≡ Refused.NoMemory }
    ensures refused { result ≢ pos 0 }
{
    match refused {
        Refused::Frame(fault) => tell_fault(FaultNumbers::of(fault), reception),
        Refused::Secured(fault) => tell_fault(FaultNumbers::of_secured(fault), reception),
        _ => {}
    }
    status_of(refused)
}

/// Writes what is wrong with octets that are no frame.
fn tell_fault(numbers: FaultNumbers, reception: &mut Reception)
    ensures { reception.new ≡ record reception.old {
      fault = numbers.layer;
      fault_kind = numbers.kind;
      fault_at = numbers.at;
    } }
{
    reception.fault = numbers.layer;
    reception.fault_kind = numbers.kind;
    reception.fault_at = numbers.at;
}

/// Writes what is said of each packet that isn't refused.
#[inline(always)]
fn tell_packet<H: Head>(packet: &PacketView<'_, H>, reception: &mut Reception)
    requires { reception.old ≡ nothing_received }
    ensures told { reception.new ≡ reception_of packet.now }
    ensures heard { IsHeard reception.new }
{
    reception.media = packet.media().unwrap_or([0; 4]);
    reception.source = packet.vector().address().as_u64();
    reception.kind = kind_number(packet.kind());
    reception.number = packet.number().unwrap_or(0);
    reception.traffic_class = packet.class().octet();
    reception.hops_left = packet.left();
}

/// Writes the reaction to a frame that isn't refused: its outcome, the due time of a held frame, and
/// whether one is cancelled.
#[inline(always)]
fn tell_reaction(reaction: Reaction<'_>, frame: &[u8], reception: &mut Reception, relay: &mut [u8])
    requires heard { IsHeard reception.old }
    requires end { WherePassed (DeliversEndOf frame.now) reaction.outcome }
    requires short { WherePassed (SendsAtMost (length relay.old)) reaction.outcome }
    ensures shown { ShowsReceived frame.now reception.old reception.new relay.new
        (Ok reaction.entry) }
{
    let Reaction {
        outcome,
        due,
        cancelled,
    } = reaction;
    tell_held(due, cancelled, reception);
    tell_outcome(outcome, frame, reception, relay);
}

/// Writes the due time of a held frame, and whether one is cancelled.
fn tell_held(due: Option<u64>, cancelled: bool, reception: &mut Reception)
    requires { IsHeard reception.old }
    ensures told { reception.new ≡ with_reaction reception.old due cancelled }
    ensures heard { IsHeard reception.new }
{
    reception.due = due.unwrap_or(0);
    reception.held = u32::from(due.is_some());
    reception.cancelled = u32::from(cancelled);
}

/// Writes the outcome of a frame that isn't refused.
#[inline(always)]
fn tell_outcome(outcome: UnitOutcome<'_>, frame: &[u8], reception: &mut Reception, relay: &mut [u8])
    requires heard { IsHeard reception.old }
    requires end { WherePassed (DeliversEndOf frame.now) outcome }
    requires short { WherePassed (SendsAtMost (length relay.old)) outcome }
    ensures shown { ShowsUnit frame.now reception.old reception.new relay.new outcome.entry }
{
    match outcome {
        UnitOutcome::Passed(Outcome::Ignored(why)) => reception.ignored = number_of(why),
        UnitOutcome::Passed(Outcome::Accepted { handed, sent }) => {
            tell_handed(handed, frame, reception);
            if let Some(sent) = sent {
                reception.relay_length = hand_out(sent.as_slice(), relay);
            }
        }
        UnitOutcome::Repeated => reception.ignored = REPEATED,
    }
}

/// Writes what is delivered.
fn tell_handed(handed: Option<Handed<'_>>, frame: &[u8], reception: &mut Reception)
    requires end { HandsOutEndOf frame.now handed }
    requires heard { IsHeard reception.old }
    ensures shown { ShowsHanded frame.now reception.new handed.entry }
    ensures besides { IsBesides reception.old reception.new }
    ensures relay { reception.new.relay_length ≡ 0 }
{
    if let Some(handed) = handed {
        reception.delivered = 1;
        reception.port = handed.port;
        reception.info = handed.info;
        reception.payload_length = handed.payload.len();
        reception.payload_start = frame.len() - handed.payload.len();
    }
}

/// The number in a reception of a packet that was delivered before.
const REPEATED: u32 = 5;

fn number_of(why: Why) -> u32
    ensures { result ≡ number_of why }
{
    match why {
        Why::NotForMe => 1,
        Why::OwnSource => 2,
        Why::SenderMismatch => 3,
        Why::Duplicate => 4,
    }
}

/// Writes octets to the beginning of a buffer, and returns how many.
pub(crate) fn hand_out(octets: &[u8], room: &mut [u8]) -> usize
    requires { length octets.now ≤ length room.old }
    ensures length { length room.new ≡ length room.old }
    ensures written { Holds result room.new octets.now }
{
    room[..octets.len()].copy_from_slice(octets);
    octets.len()
}
