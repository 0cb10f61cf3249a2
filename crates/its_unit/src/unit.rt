//! A unit, how it is made, and its counts.

ghost use Rattle.std.specs.Prelude.{◌≡◌, Some, None, IfOk};
ghost use Rattle.its_contention.specs.Buffer.{empty};
ghost use Rattle.its_governor.specs.Governing.{IsNewGovernor};
ghost use Rattle.its_station.specs.Counting.{nothing};

use its_contention::{Contention, ContentionRule};
use its_gnvalue::NoMemory;
use its_governor::{Governor, Limits, WithheldCounts};
use its_loctable::LocationStore;
use its_station::{Counts, Station};
use std::alloc::Global;
use std::marker::Model;

/// A station, the frames that wait if it contends, the limits on what it sends, and counts of the
/// outcomes of its calls. Contracts see all four (`UnitState`).
#[derive(Drop)]
pub struct Unit<S: LocationStore> {
    pub(crate) station: Station<S>,
    pub(crate) contention: Option<Contention>,
    pub(crate) governor: Governor,
    pub(crate) counts: Counts,
}

impl<S: LocationStore> Model for Unit<S> {
    ghost use Rattle.its_unit.specs.Unit.{UnitState};

    ghost Value = { UnitState };

    ghost view = { λ u. record {
      station = u.station;
      contention = u.contention;
      governor = u.governor;
      counts = u.counts;
    } };
}

impl<S: LocationStore> Unit<S> {
    /// A unit with this station and these limits, which doesn't contend: a packet goes on at once
    /// inside its area. The buckets of the limits are full, no delivered packet is remembered, and
    /// nothing is counted. The limits take all their memory here.
    pub fn new(alloc: Global, station: Station<S>, limits: &Limits) -> Result<Unit<S>, NoMemory>
        ensures station { IfOk result (λ u. u.station ≡ station) }
        ensures limits { IfOk result (λ u. IsNewGovernor limits.now u.governor) }
        ensures contention { IfOk result (λ u. u.contention ≡ None) }
        ensures counts { IfOk result (λ u. u.counts ≡ nothing) }
    {
        let governor = Governor::new(alloc, limits)?;
        Ok(Unit {
            station,
            contention: None,
            governor,
            counts: Counts::new(),
        })
    }

    /// A unit with this station and these limits, which contends by this rule: inside the area of a
    /// GBC it waits before it forwards the packet, and doesn't forward it if enough others did. No
    /// frame waits. Otherwise it is as `new` makes it. It takes all memory here but that of the frames.
    pub fn contending(
        alloc: Global,
        station: Station<S>,
        limits: &Limits,
        rule: ContentionRule,
    ) -> Result<Unit<S>, NoMemory>
        ensures station { IfOk result (λ u. u.station ≡ station) }
        ensures limits { IfOk result (λ u. IsNewGovernor limits.now u.governor) }
        ensures contention { IfOk result (λ u. u.contention ≡ Some (empty rule)) }
        ensures counts { IfOk result (λ u. u.counts ≡ nothing) }
    {
        let governor = Governor::new(alloc, limits)?;
        let contention = Contention::new(alloc, rule)?;
        Ok(Unit {
            station,
            contention: Some(contention),
            governor,
            counts: Counts::new(),
        })
    }

    /// The station, for what it knows.
    pub fn station(&self) -> &Station<S>
        ensures { result.now ≡ self.now.station }
    {
        &self.station
    }

    /// How often each thing happened since the unit was made. A restart keeps the counts.
    pub fn counts(&self) -> Counts
        ensures { result ≡ self.now.counts }
    {
        self.counts
    }

    /// How often the limits withheld something.
    pub fn withheld(&self) -> WithheldCounts
        ensures { result ≡ self.now.governor.counts }
    {
        self.governor.counts()
    }
}
