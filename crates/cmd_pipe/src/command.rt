//! The command `station`.

ghost use Rattle.std.specs.Prelude.{◌≡◌, IfOk, None};
ghost use Rattle.its_model.specs.Station.{new_station};
ghost use Rattle.its_station.specs.Counting.{nothing};
ghost use Rattle.its_station.specs.State.{RepresentsStation};
ghost use Rattle.its_world.specs.Events.{IsConfig};
ghost use Rattle.cmd_pipe.specs.Serving.{ServesInput, no_limits};
ghost use Rattle.std.specs.Option.{option_map};
ghost use Rattle.its_contention.specs.Buffer.{empty};
ghost use Rattle.its_governor.specs.Governing.{IsNewGovernor};

use crate::fault::PipeFault;
use crate::printer::Printer;
use crate::serving::serve;
use cmd_reporting::Status;
use its_contention::ContentionRule;
use its_gnvalue::NoMemory;
use its_governor::Limits;
use its_loctable::SortedTable;
use its_station::Station;
use its_unit::Unit;
use its_world::Config;
use std::alloc::Global;
use std::io::{BufReader, Read, Write};

/// Runs one station that doesn't contend, as `run_contending_station` does.
pub fn run_station<R: Read + Drop, W: Write, E: Write>(
    alloc: Global,
    config: &Config,
    input: R,
    out: &mut W,
    err: &mut E,
) -> Status
    requires { IsConfig config.now }
    ensures { ¬ (result ≡ Status.Failed) →
        ServesInput config.now None result (R.remaining input) }
{
    run_contending_station(alloc, config, None, input, out, err)
}

/// Runs one station, which begins as the config says, on the lines of the input. If a rule is
/// given, it contends by this rule. The answer to a line is written to `out` as one line, and
/// flushed, before the next line is read. If the octets of the input are known, all its lines are
/// answered, in order.
///
/// `Refused` if a line could not be read. `Failed` if the input could not be read, `out` could not
/// be written, or memory ran out. The line of a fault is written to `err`.
///
/// - its clause (`ServesInput`): unless the status is `Failed`, the answers to the lines of the
///   input (all of them, if its octets are known) are those of the unit of the model that begins as
///   the config says, without limits. The status is `Refused` if one of these answers is a fault,
///   otherwise `Done`.
pub fn run_contending_station<R: Read + Drop, W: Write, E: Write>(
    alloc: Global,
    config: &Config,
    rule: Option<ContentionRule>,
    input: R,
    out: &mut W,
    err: &mut E,
) -> Status
    requires { IsConfig config.now }
    ensures { ¬ (result ≡ Status.Failed) → ServesInput config.now rule result (R.remaining input) }
{
    match serve_input(alloc, config, rule, input, out) {
        Ok(ended) => ended,
        Err(fault) => {
            fault.report(err);
            Status::Failed
        }
    }
}

/// Serves the lines of the input by a new station, up to the first fault that ends it.
fn serve_input<R: Read + Drop, W: Write>(
    alloc: Global,
    config: &Config,
    rule: Option<ContentionRule>,
    input: R,
    out: &mut W,
) -> Result<Status, PipeFault>
    requires { IsConfig config.now }
    ensures { IfOk result (λ ended. ServesInput config.now rule ended (R.remaining input)) }
{
    let mut unit = begin(alloc, config, rule)?;
    let mut reader = BufReader::new(alloc, input).map_err(|error| PipeFault::of_read(&error))?;
    let mut printer = Printer::new(alloc, out)?;
    serve(alloc, &mut unit, &mut reader, &mut printer)
}

/// Returns a new unit without limits, which contends by this rule, if one is given.
fn begin(
    alloc: Global,
    config: &Config,
    rule: Option<ContentionRule>,
) -> Result<Unit<SortedTable>, NoMemory>
    requires { IsConfig config.now }
    ensures station { IfOk result (λ unit. RepresentsStation unit.station
        (new_station config.now.address config.now.place config.now.capacity config.now.remember)) }
    ensures limits { IfOk result (λ unit. IsNewGovernor no_limits unit.governor) }
    ensures contention { IfOk result (λ unit. unit.contention ≡ option_map empty rule) }
    ensures counts { IfOk result (λ unit. unit.counts ≡ nothing) }
{
    let (address, place) = (config.address, config.place);
    match Station::new(alloc, address, place, config.capacity, config.remember) {
        Ok(station) => match rule {
            Some(rule) => Unit::contending(alloc, station, &Limits::NONE, rule),
            None => Unit::new(alloc, station, &Limits::NONE),
        },
        Err(_) => Err(NoMemory),
    }
}
