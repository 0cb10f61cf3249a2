//! What a handle counts: how often each thing happened since its unit was made.

ghost use Rattle.std.specs.Prelude.{◌≡◌, Some};
ghost use Rattle.its_unit.specs.Unit.{UnitState};
ghost use Rattle.its_unit.specs.Releases.{counts_in};
ghost use Rattle.its_c.specs.Counted.{counts_of, held_counts_of, or_none, withheld_in};
ghost use Rattle.its_c.specs.Life.{CallStep};
ghost use Rattle.its_c.specs.Life.HandleCall.{Read};

use crate::handle::Geostation;
use crate::layout::{AllCounts, HeldCounts, ToldCounts};
use its_contention::ContentionCounts;
use its_station::Counts;
use std::alloc::Global;

/// Writes how often each thing happened since the unit was made: frames that came and their outcomes,
/// calls that were refused, by code, what was sent, what the limits withheld, and what happened to
/// held frames. A call that returns `BAD_ARGUMENT` or `NO_ROOM` isn't counted, and a restart keeps the counts.
#[unsafe(no_mangle)]
pub extern "C" fn geostation_counts(alloc: Global, s: &mut Geostation, counts: &mut AllCounts)
    ensures told { (st : UnitState) → s.old.held.unit ≡ Some st →
        counts_of counts.new.told ≡ st.counts }
    ensures withheld { (st : UnitState) → s.old.held.unit ≡ Some st →
        withheld_in counts.new ≡ st.governor.counts }
    ensures contention { (st : UnitState) → s.old.held.unit ≡ Some st →
        held_counts_of counts.new.contention ≡ or_none (counts_in st.contention) }
    ensures unchanged { CallStep Read s.old s.new }
{
    let unit = s.held.take(alloc);
    let told = told_counts(&unit.counts());
    let withheld = unit.withheld();
    let contention = held_counts(unit.contention_counts());
    s.held.put(unit);
    *counts = AllCounts {
        told,
        suppressed: withheld.suppressed,
        repeated: withheld.repeated,
        over_rate: withheld.over_rate,
        contention,
    };
}

/// The counts of held frames in C's struct.
fn held_counts(c: Option<ContentionCounts>) -> HeldCounts
    ensures { held_counts_of result ≡ or_none c }
{
    match c {
        Some(c) => HeldCounts {
            held: c.held,
            released: c.released,
            cancelled: c.cancelled,
            dropped: c.dropped,
            full: c.full,
        },
        None => HeldCounts {
            held: 0,
            released: 0,
            cancelled: 0,
            dropped: 0,
            full: 0,
        },
    }
}

/// The counts in C's struct.
fn told_counts(c: &Counts) -> ToldCounts
    ensures { counts_of result ≡ c.now }
{
    ToldCounts {
        received: c.received,
        accepted: c.accepted,
        delivered: c.delivered,
        relayed: c.relayed,
        not_for_me: c.ignored.not_for_me,
        own_source: c.ignored.own_source,
        sender_mismatch: c.ignored.sender_mismatch,
        duplicate: c.ignored.duplicate,
        moment_earlier: c.refused.moment_earlier,
        moment_too_late: c.refused.moment_too_late,
        frame: c.refused.frame,
        table_full: c.refused.table_full,
        no_memory: c.refused.no_memory,
        other: c.refused.other,
        beacons: c.sent.beacons,
        single_hop: c.sent.single_hop,
        geobroadcasts: c.sent.geobroadcasts,
        geoanycasts: c.sent.geoanycasts,
    }
}
