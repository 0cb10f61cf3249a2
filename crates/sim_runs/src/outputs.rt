//! The files that a run writes.

use cmd_reporting::{Fault, FrameFile, FrameTarget, create, create_frames};
use sim_results::{ResultFiles, ResultWriters, Results};
use sim_scenario::Scenario;
use std::io;
use std::io::{BufWriter, Write};
use std::rt::Files;

/// The files that a run is writing.
#[derive(Drop)]
pub(crate) struct Outputs<'a, W: Write + Drop> {
    /// The file of the frames that stations send, if there is one.
    pub(crate) frames: Option<FrameFile<'a, W>>,
    /// The result files.
    pub(crate) results: Results<'a, W>,
}

impl<'a> Outputs<'a, io::Sink> {
    /// Returns the outputs of a run that writes no file.
    pub(crate) fn none() -> Outputs<'a, io::Sink> {
        Outputs {
            frames: None,
            results: Results::none(),
        }
    }
}

/// Creates and begins the files of a run of the scenario. Returns that a file could not be created
/// or written, or that memory ran out.
pub(crate) fn create_outputs<'a, R: Files + AllocGlobal>(
    rt: &R,
    scenario: &Scenario,
    target: Option<FrameTarget<'a>>,
    names: ResultFiles<'a>,
) -> Result<Outputs<'a, BufWriter<R::File>>, Fault<'a>>
where
    R::File: Write + Drop,
{
    Ok(Outputs {
        frames: create_frames(rt, target, scenario.stations.len())?,
        results: create_results(rt, scenario, names)?,
    })
}

/// Creates the file with this name, if there is one.
fn create_named<'a, R: Files + AllocGlobal>(
    rt: &R,
    name: Option<&'a str>,
) -> Result<Option<BufWriter<R::File>>, Fault<'a>>
where
    R::File: Write + Drop,
{
    match name {
        Some(name) => Ok(Some(create(rt, name)?)),
        None => Ok(None),
    }
}

/// Creates and begins the result files.
fn create_results<'a, R: Files + AllocGlobal>(
    rt: &R,
    scenario: &Scenario,
    names: ResultFiles<'a>,
) -> Result<Results<'a, BufWriter<R::File>>, Fault<'a>>
where
    R::File: Write + Drop,
{
    let writers = ResultWriters {
        sends: create_named(rt, names.sends)?,
        stations: create_named(rt, names.stations)?,
        load: create_named(rt, names.load)?,
    };
    Results::begin(rt.alloc(), scenario, names, writers)
}
