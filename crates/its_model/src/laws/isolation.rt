//! A station's calls, and what one source sees of it.

ghost use Rattle.std.specs.Prelude.{◌≡◌, List, ◌++◌};
ghost use Rattle.its_model.specs.Station.{StationModel};
ghost use Rattle.its_model.specs.Isolation.{TimedCall, answers_of, station_run, SourcesAreIsolated};

/// A station's calls go on where earlier ones stopped.
pub fn calls_go_on()
    ensures station { (s : StationModel) (first next : List TimedCall) →
        station_run s (first ++ next) ≡ station_run (station_run s first) next }
    ensures answers { (s : StationModel) (first next : List TimedCall) →
        answers_of s (first ++ next) ≡ answers_of s first ++ answers_of (station_run s first) next }
{}

/// What a station's own applications and one source see of it is what they see without the frames
/// of others, as long as moments don't fall and no answer is that the table is full.
pub fn sources_are_isolated()
    ensures { SourcesAreIsolated }
{}
