//! Replays the records of a file: the station receives each at its time.

ghost use Rattle.std.specs.Prelude.{◌≡◌, [], IfOk, List};
ghost use Rattle.its_unit.specs.Unit.{RepresentsUnit, UnitModel};
ghost use Rattle.cmd_stats.specs.Listening.{Listening, Represents};
ghost use Rattle.cmd_stats.specs.declared.replay.heard.Heard.{Heard as ToldRecord};
ghost use Rattle.cmd_stats.specs.Replays.{IsReplayedWhole, IsHeard, TellsOctets};
ghost use Rattle.cmd_stats.specs.Replays.{TellsOnAir, TellsWhat};

use crate::replay::air_octets::AirOctets;
use crate::replay::heard::{Heard, HeardSink};
use crate::replay::listener::{Listener, Rules};
use crate::replay::on_air::OnAir;
use cap_pcap::{LONGEST_RECORD, RecordHeader, RecordSource, SourceFault};
use cap_records::{Pulled, RecordCounts, RecordReader, Records, Selection};
use cmd_reporting::Fault;
use its_gnvalue::NoMemory;
use its_loctable::SortedTable;
use its_unit::{Limiting, Unit};
use std::alloc::{AllocError, Global};

/// Reads what a station receives of a record.
#[derive(Drop)]
struct AirReader {
    alloc: Global,
}

impl RecordReader for AirReader {
    ghost use Rattle.cmd_stats.specs.Replays.{ReadsAir};

    type Record = OnAir;

    ghost Reads = { ReadsAir };

    fn read(
        &mut self,
        selection: &Selection,
        head: &RecordHeader,
        octets: &mut Vec<u8>,
    ) -> Result<Option<OnAir>, AllocError> {
        let on_air = OnAir::of(self.alloc, head, octets, selection.signed)?;
        if on_air.is_chosen(&selection.choice, head.moment) {
            Ok(Some(on_air))
        } else {
            Ok(None)
        }
    }
}

/// Reads the file to its end, to its fault or until as many records are selected as are wanted.
/// Passes the octets of each selected record to the unit, at the record's time, by a call of
/// `Unit::receive`, or of `Unit::receive_verified` for a secured frame, if the selection reads
/// these by their plain part. If `rules` lifts the limits of the unit, none applies to these calls.
/// Before a selected record the moves up to its time are made. The reply is passed to the sink
/// before the next record is read. Returns how many records were read, and the fault of the file if
/// it has one.
///
/// Returns `OutOfMemory` if an allocation failed, and any fault of the sink. Nothing more is read
/// then.
///
/// With `against`, a frame from this link address is what the station under test sent. It is passed
/// to the sink, and the unit doesn't receive it.
///
/// - its clause (`IsReplayedWhole`): each selected record, in order, is one step of the written
///   rules of this unit, at the record's time and with the octets of its frame, or is reported as
///   one without a frame, or as one that the station under test sent. That step's answer is
///   reported, once and in order. Each move is made once, in order and at its time, before the
///   first selected record whose time is not before it (`moved`). The file is read to its end, to
///   its fault, or to as many selected records as are wanted. The unit is always one of the model.
pub fn replay_records<'f, S: RecordSource + Drop, K: HeardSink>(
    alloc: Global,
    listener: &mut Listener<'_>,
    rules: &Rules,
    selection: &Selection,
    source: S,
    sink: &mut K,
) -> Result<(RecordCounts, Option<SourceFault>), Fault<'f>>
    ensures { (m : Listening) → Represents listener.old m → K.Took sink.old [] →
        IfOk result (λ ended. IsReplayedWhole S.GivesStep selection.now.choice
        selection.now.count selection.now.signed rules.now source m listener.new ended.0 ended.1
        (K.Took sink.new)) }
{
    let octets = Vec::with_capacity(alloc, LONGEST_RECORD)?;
    let mut records = Records::new(source, AirReader { alloc }, octets, *selection);
    loop {
        match records.next_chosen()? {
            Pulled::Chosen(head, on_air) => {
                hear(alloc, listener, rules, head.moment, on_air, sink)?
            }
            Pulled::Interface => {}
            Pulled::End(fault) => return Ok((records.counts, fault)),
        }
    }
}

/// Makes the moves up to a time. Then passes what was on the air to the unit, unless the station
/// under test sent it, and passes the outcome to the sink.
fn hear<'f, K: HeardSink>(
    alloc: Global,
    listener: &mut Listener<'_>,
    rules: &Rules,
    moment: u64,
    on_air: OnAir,
    sink: &mut K,
) -> Result<(), Fault<'f>>
    ensures { (m : Listening) (log : List ToldRecord) → Represents listener.old m →
        K.Took sink.old log → IfOk result (λ _. IsHeard rules.now on_air moment m log listener.new
        (K.Took sink.new)) }
{
    listener.make_moves(moment);
    let heard = heard_of(alloc, &mut listener.unit, rules, moment, on_air)?;
    sink.put(heard)
}

/// Returns the outcome of what was on the air at a time. `NoMemory` if an allocation failed. The
/// unit is unchanged then.
fn heard_of(
    alloc: Global,
    unit: &mut Unit<SortedTable>,
    rules: &Rules,
    moment: u64,
    on_air: OnAir,
) -> Result<Heard, NoMemory>
    ensures { (u : UnitModel) → RepresentsUnit unit.old u →
        IfOk result (λ heard. TellsWhat rules.now on_air moment u heard unit.new) }
{
    if on_air.is_sent(&rules.against) {
        return Ok(on_air.into_sent(moment));
    }
    receive(alloc, unit, rules.limiting, moment, on_air)
}

/// Passes what was on the air to the unit at a time. `NoMemory` if an allocation failed. The unit
/// is unchanged then.
fn receive(
    alloc: Global,
    unit: &mut Unit<SortedTable>,
    limiting: Limiting,
    moment: u64,
    on_air: OnAir,
) -> Result<Heard, NoMemory>
    ensures { (u : UnitModel) → RepresentsUnit unit.old u →
        IfOk result (λ heard. TellsOnAir limiting on_air moment u heard unit.new) }
{
    match on_air {
        OnAir::Octets(octets) => receive_octets(alloc, unit, limiting, moment, octets),
        OnAir::Secured(secured) => secured.receive(alloc, unit, limiting, moment),
        OnAir::Nothing(fault) => Ok(Heard::Nothing { moment, fault }),
    }
}

/// Has the unit receive octets at a time.
fn receive_octets(
    alloc: Global,
    unit: &mut Unit<SortedTable>,
    limiting: Limiting,
    moment: u64,
    octets: AirOctets,
) -> Result<Heard, NoMemory>
    ensures { (u : UnitModel) → RepresentsUnit unit.old u →
        IfOk result (λ heard. TellsOctets limiting octets.items moment u heard unit.new) }
{
    let reply = octets.receive(alloc, unit, limiting, moment)?;
    Ok(Heard::Received {
        moment,
        frame: octets.into_octets(),
        reply,
    })
}
