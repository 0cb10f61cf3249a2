//! A call of a station, and its keyword.

ghost use Rattle.std.specs.Prelude.{◌≡◌, ◌∷◌, [], IfOk, OnErr};
ghost use Rattle.its_model.specs.Station.{StationModel};
ghost use Rattle.its_station.specs.Runs.{IsInRange, IsIsolatedRunOf, reply_of};
ghost use Rattle.its_station.specs.State.{RepresentsStation};

use its_gnvalue::NoMemory;
use its_loctable::SortedTable;
use its_model::laws::{calls_go_on, sources_are_isolated};
use its_station::{Call, Station, StationAnswer};
use its_words::calls::own_verb;

/// Makes one call of a station, which is a run of only this call. `NoMemory` if an allocation
/// failed. Nothing changed then.
pub(crate) fn answer(
    station: &mut Station<SortedTable>,
    moment: u64,
    call: Call,
) -> Result<StationAnswer, NoMemory>
    requires { IsInRange call }
    ensures done { (s : StationModel) → RepresentsStation station.old s →
        IfOk result (λ answer. IsIsolatedRunOf s ((moment, call) ∷ []) (reply_of answer ∷ [])
        station.new) }
    ensures unmade { OnErr result (station.new ≡ station.old) }
{
    // Laws, for the proof alone.
    calls_go_on();
    sources_are_isolated();
    station.answer(moment, &call)
}

/// Returns the keyword of a call, as a scenario has it under `do`. It is `receive` for a received
/// frame.
pub(crate) fn call_word(call: &Call) -> &'static str {
    match call {
        Call::Own(own) => own_verb(own).word(),
        Call::Receive(_) => "receive",
    }
}
