//! Events of a scenario that its run doesn't reach.

ghost use Rattle.std.specs.Prelude.{◌≡◌, ◌≤◌, ◌<◌, IfNone, IfSome, None, Some};

use crate::unsent::AreaSend;
use its_gnvalue::NoMemory;
use sim_scenario::events::{AddressedEvent, FileEvent};
use sim_scenario::{Scenario, Timeline};
use std::alloc::Global;

/// Why a run doesn't reach an event of its scenario.
#[derive(Clone, Copy)]
pub(crate) enum WhyLate {
    /// The event is after this time, the last one that is run.
    AfterUntil(u64),
    /// The file of moves cut the run short before it.
    CutShort,
}

impl WhyLate {
    /// Returns why a run doesn't reach an event of this time. `until` is the last time that is run,
    /// if the scenario has it. `cut` is the time of the first events that weren't run, if the run
    /// was cut short. `None` if the event was run.
    fn of(moment: u64, until: Option<u64>, cut: Option<u64>) -> Option<WhyLate>
        ensures after { IfSome until (λ until. until < moment →
            result ≡ Some (WhyLate.AfterUntil until)) }
        ensures cut { IfSome cut (λ cut. cut ≤ moment → IfSome until (λ until. moment ≤ until) →
            result ≡ Some WhyLate.CutShort) }
        ensures run { IfSome cut (λ cut. moment < cut) → IfSome until (λ until. moment ≤ until) →
            result ≡ None }
    {
        match until {
            Some(until) if moment > until => return Some(WhyLate::AfterUntil(until)),
            _ => {}
        }
        match cut {
            Some(cut) if moment >= cut => Some(WhyLate::CutShort),
            _ => None,
        }
    }
}

/// An event of a scenario that its run doesn't reach.
#[derive(Clone, Copy)]
pub(crate) struct LateEvent {
    /// Its number among the events of the document, from 0.
    pub(crate) number: usize,
    pub(crate) moment: u64,
    /// Its station, if the event names one by its number.
    pub(crate) station: Option<usize>,
    /// The packet for an area that it sends, if it sends one.
    pub(crate) packet: Option<AreaSend>,
    pub(crate) why: WhyLate,
}

impl LateEvent {
    /// Returns the event or leave with this number, which isn't run for this reason.
    fn of(number: usize, filed: &FileEvent, why: WhyLate) -> LateEvent {
        LateEvent {
            number,
            moment: filed.moment(),
            station: Some(filed.station()),
            packet: filed.event().and_then(|event| AreaSend::of(&event.what)),
            why,
        }
    }

    /// Returns the event or leave of a scenario with moves, whose station may be named by an id.
    fn of_addressed(event: &AddressedEvent, why: WhyLate) -> LateEvent {
        LateEvent {
            number: event.number,
            moment: event.moment,
            station: event.station(),
            packet: AreaSend::of_action(&event.action),
            why,
        }
    }
}

/// Returns the events and leaves of a scenario that its run doesn't reach, in the order of their
/// times. `cut` is the time of the first events that weren't run, if the run was cut short. Without
/// a radio model each event is run.
pub(crate) fn late_events(
    alloc: Global,
    scenario: &Scenario,
    cut: Option<u64>,
) -> Result<Vec<LateEvent>, NoMemory> {
    let mut late = Vec::new(alloc);
    let until = scenario.timeline.air().and_then(|air| air.until);
    match &scenario.timeline {
        Timeline::Plain(_) => {}
        Timeline::Air(timeline) => {
            for (number, filed) in timeline.events.iter().enumerate() {
                if let Some(why) = WhyLate::of(filed.moment(), until, cut) {
                    late.push(LateEvent::of(number, filed, why))?;
                }
            }
        }
        Timeline::Moves(timeline) => {
            for event in &timeline.events {
                if let Some(why) = WhyLate::of(event.moment, until, cut) {
                    late.push(LateEvent::of_addressed(event, why))?;
                }
            }
        }
    }
    late.sort_by_key(|event| event.moment)?;
    Ok(late)
}
