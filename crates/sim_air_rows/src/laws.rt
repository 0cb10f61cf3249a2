//! The two runs. Each is a function that does nothing and proves what it ensures.

ghost use Rattle.sim_air_rows.specs.FourStations.{four, file, rules_without, rules_with};
ghost use Rattle.sim_air_rows.specs.FourStations.{lines_without, lines_with};
ghost use Rattle.sim_air_rows.specs.Lines.{IsRun, RunsTake};

/// Without beacons the run of the four stations is over after these eight events, and its log has
/// just their lines. So each run of theirs that is over took these events, with these answers.
///
/// - `lines`: the run of four stations in a row is over after eight events, and the world's log has
///   exactly the eight lines that are written out (`IsRun`): events, answers, delivered message and
///   numbers of frames.
/// - `taken`: so each run of theirs of which `run_air` promises `timed` took exactly these events,
///   with these answers (`RunsTake`).
pub fn without_beacons()
    ensures lines { IsRun rules_without four file lines_without }
    ensures taken { RunsTake rules_without four file lines_without }
{}

/// With beacons and the seed 7 it is over after these eighteen, and its log has just their lines.
/// So each run of theirs that is over took these events, with these answers.
///
/// - `lines`, `taken`: the same with beacons, with the random numbers of seed 7 up to time 3000,
///   and eighteen lines.
pub fn with_beacons()
    ensures lines { IsRun rules_with four file lines_with }
    ensures taken { RunsTake rules_with four file lines_with }
{}
