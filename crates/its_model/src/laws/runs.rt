//! How a run, its log and its frames belong together.

ghost use Rattle.std.specs.Prelude.{◌≡◌, ℕ, ◌<◌, List, ◌∷◌, ◌++◌, length, take, Some, slice_get};
ghost use Rattle.its_model.specs.Packet.{Transmission};
ghost use Rattle.its_model.specs.Station.{StationModel};
ghost use Rattle.its_model.specs.World.{WorldModel, LogLine, Config, Event, opening, frame_of};
ghost use Rattle.its_model.specs.World.{world_run, entries, events_in};
ghost use Rattle.its_model.specs.World.What.{Deliver};
ghost use Rattle.its_model.specs.Log.{Origin, origin_by, origins};
ghost use Rattle.its_model.specs.Schedules.{IsAsLogged, IsGivenBy, IsInLog};

/// A run goes on where an earlier one stopped.
pub fn runs_go_on()
    ensures { (w : WorldModel) (first next : List Event) →
        world_run w (first ++ next) ≡ world_run (world_run w first) next }
{}

/// What a run did stays as it goes on: a frame keeps its number and its origin, and an earlier log
/// is that of a shorter run, of its first events. So what a law says of a run's end it says of each
/// line before.
pub fn what_was_done_stays()
    ensures frames { (w : WorldModel) (first next : List Event) (k : ℕ) (t : Transmission) →
        slice_get (world_run w first).air k ≡ Some t →
        slice_get (world_run w (first ++ next)).air k ≡ Some t }
    ensures origins { (later before : List LogLine) (k : ℕ) (o : Origin) →
        slice_get (origins before) k ≡ Some o → slice_get (origins (later ++ before)) k ≡ Some o }
    ensures log { (configs : List Config) (events : List Event) (later before : List LogLine) →
        (world_run (opening configs) events).log ≡ later ++ before →
        (world_run (opening configs) (take (length before) events)).log ≡ before }
{}

/// Each event has one line in the log, and a line's place is how many lines came before it: it is
/// the event and the entry at that place, counted from the oldest.
pub fn one_line_an_event()
    ensures events { (configs : List Config) (events : List Event) →
        events_in (world_run (opening configs) events).log ≡ events }
    ensures event { (later before : List LogLine) (line : LogLine) →
        slice_get (events_in (later ++ line ∷ before)) (length before) ≡ Some line.event }
    ensures entry { (later before : List LogLine) (line : LogLine) →
        slice_get (entries (later ++ line ∷ before)) (length before) ≡ Some line.entry }
{}

/// Each frame was given by one line of the log, the later frame by the later line; and its origin
/// is what that line makes it: a call is its own origin, and a delivery passes on that of the frame
/// that was delivered, one deeper.
pub fn one_line_a_frame()
    ensures given { (configs : List Config) (events : List Event) (k : ℕ) →
        let w = world_run (opening configs) events in
        k < length w.air → IsGivenBy w.log k }
    ensures origins { (configs : List Config) (events : List Event) →
        let w = world_run (opening configs) events in
        length (origins w.log) ≡ length w.air }
    ensures rises { (configs : List Config) (events : List Event)
        (later between older : List LogLine) (first second : LogLine) (k m : ℕ) →
        (world_run (opening configs) events).log ≡ later ++ second ∷ (between ++ first ∷ older) →
        frame_of first.entry ≡ Some k → frame_of second.entry ≡ Some m → k < m }
    ensures origin { (configs : List Config) (events : List Event)
        (later before : List LogLine) (line : LogLine) (k : ℕ) →
        let w = world_run (opening configs) events in
        w.log ≡ later ++ line ∷ before → frame_of line.entry ≡ Some k →
        slice_get (origins w.log) k ≡ origin_by line.event.what line.event before (origins before) }
{}

/// The stations stay as many as were configured, and each is what its log makes it.
///
/// - `count`, `each`: each station keeps address, capacity and how many numbers it remembers, is
///   mobile, and has the position, the clock, the count and the memory that the log says.
pub fn stations_are_as_logged()
    ensures count { (configs : List Config) (events : List Event) →
        length (world_run (opening configs) events).stations ≡ length configs }
    ensures each { (configs : List Config) (events : List Event) (j : ℕ) (s : StationModel) →
        let w = world_run (opening configs) events in
        slice_get w.stations j ≡ Some s → IsAsLogged configs w.log j s }
{}

/// What a line says was delivered is the frame of the number that its event names.
pub fn a_line_has_its_frame()
    ensures { (configs : List Config) (events : List Event)
        (later before : List LogLine) (line : LogLine) (t : Transmission) →
        let w = world_run (opening configs) events in
        w.log ≡ later ++ line ∷ before → line.delivered ≡ Some t →
        (k : ℕ) × (line.event.what ≡ Deliver k) × (slice_get w.air k ≡ Some t) }
{}

/// A frame's origin is a line of the log, by which a frame was given.
pub fn an_origin_is_in_the_log()
    ensures { (log : List LogLine) (k : ℕ) (o : Origin) → slice_get (origins log) k ≡ Some o
        → IsInLog o log }
{}
