//! Which stations of a scenario contend.

ghost use Rattle.std.specs.Prelude.{◌≡◌, IfOk, map};
ghost use Rattle.std.specs.List.{list_any};
ghost use Rattle.sim_scenario.specs.Scenarios.{contends, has_contention, rows_contend};
ghost use Rattle.sim_scenario.specs.Scenarios.{usual_contention};

use crate::fault::DocumentFault;
use crate::scenario::Scenario;
use crate::timeline::Timeline;
use std::alloc::Global;

impl Scenario {
    /// Returns whether any station contends: one of the scenario, or one that a row would make.
    pub fn has_contention(&self) -> bool
        ensures { result ≡ has_contention self.now }
    {
        self.timeline.rows_contend() || any_contends(self.contend.as_slice())
    }
}

impl Timeline {
    /// Returns whether stations that rows make contend. Without moves no row makes one.
    pub fn rows_contend(&self) -> bool
        ensures { result ≡ rows_contend self.now }
    {
        match self {
            Timeline::Moves(timeline) => timeline.moves.contends,
            Timeline::Plain(_) | Timeline::Air(_) => false,
        }
    }

    /// Returns whether stations contend that don't say so themselves. `None` without a radio model.
    pub(crate) fn usual_contention(&self) -> Option<bool>
        ensures { result ≡ usual_contention self.now }
    {
        match self {
            Timeline::Plain(_) => None,
            Timeline::Air(timeline) => Some(timeline.air.contends),
            Timeline::Moves(timeline) => Some(timeline.air.contends),
        }
    }
}

/// Returns whether each station contends: by its own value, or `usual` without one. Without a radio
/// model none does.
pub(crate) fn contending(
    alloc: Global,
    usual: Option<bool>,
    own: &[Option<bool>],
) -> Result<Vec<bool>, DocumentFault>
    ensures all { IfOk result (λ contend. contend.items ≡ map (contends usual) own.now) }
{
    let mut contend = Vec::with_capacity(alloc, own.len())?;
    for station in own {
        contend.push(contends(usual, *station))?;
    }
    Ok(contend)
}

/// Returns whether a station contends that has this value of its own, if any.
fn contends(usual: Option<bool>, own: Option<bool>) -> bool
    ensures { result ≡ contends usual own }
{
    match (usual, own) {
        (None, _) => false,
        (Some(_), Some(own)) => own,
        (Some(usual), None) => usual,
    }
}

/// Returns whether any of these stations contends.
fn any_contends(contend: &[bool]) -> bool
    ensures { result ≡ list_any (λ one. one) contend.now }
{
    contend.contains(&true)
}
