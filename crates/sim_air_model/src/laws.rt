//! Laws of the runs of a radio model. Each is a function that does nothing and proves what it
//! ensures.

ghost use Rattle.std.specs.Prelude.{◌≡◌, ℕ, List};
ghost use Rattle.its_model.specs.World.{Config};
ghost use Rattle.sim_air_model.specs.Heard.{StepsDoEvents, MomentsNeverFall};
ghost use Rattle.sim_air_model.specs.Heard.{WhatIsHeardIsDelivered};
ghost use Rattle.sim_air_model.specs.Heard.{DeliveriesAreHeard, DeliversOnce, TicksGoOn};
ghost use Rattle.sim_air_model.specs.Heard.{TicksAreDue};
ghost use Rattle.sim_air_model.specs.Heard.{SendsGoOn, SendsAreDue};
ghost use Rattle.sim_air_model.specs.Carried.{LogsNeverFall, FramesComeInOrder};
ghost use Rattle.sim_air_model.specs.Carried.{StationsInRangeHear};
ghost use Rattle.sim_air_model.specs.Carried.{ReachesInAir};
ghost use Rattle.sim_air_model.specs.Timetable.{Rules, Filed, IsOver, air_opening, air_run};

/// A radio model has one run: if two numbers of steps leave nothing that waits up to the last time,
/// they leave the same state.
pub fn one_run()
    ensures { (rules : Rules) (configs : List Config) (file : List Filed) (m n : ℕ) →
        IsOver rules (air_run rules configs m (air_opening rules configs file)) →
        IsOver rules (air_run rules configs n (air_opening rules configs file)) →
        air_run rules configs m (air_opening rules configs file)
        ≡ air_run rules configs n (air_opening rules configs file) }
{}

/// What a step does is the next of the events that are done.
pub fn steps_do_events()
    ensures { (rules : Rules) (configs : List Config) (file : List Filed) →
        StepsDoEvents rules configs file }
{}

/// The times of the events that a radio model does never fall.
pub fn moments_never_fall()
    ensures { (rules : Rules) (configs : List Config) (file : List Filed) →
        MomentsNeverFall rules configs file }
{}

/// In a run that is over, a frame that a present station sent is delivered to each other present
/// station in range whose random number is at least the loss. It comes the delay later, if that is
/// not after the last time.
pub fn what_is_heard_is_delivered()
    ensures { (rules : Rules) (configs : List Config) (file : List Filed) →
        WhatIsHeardIsDelivered rules configs file }
{}

/// Each delivery that the radio model planned has an earlier step that sent the frame, the delay
/// before. Sender and receiver were present then, the receiver was in range, and its random number
/// was at least the loss.
pub fn deliveries_are_heard()
    ensures { (rules : Rules) (configs : List Config) (file : List Filed) →
        DeliveriesAreHeard rules configs file }
{}

/// The radio model delivers no frame twice to a station, whatever the file delivers in addition. So
/// what is heard and delivered (`what_is_heard_is_delivered`) is delivered exactly once.
pub fn deliveries_come_once()
    ensures { (rules : Rules) (configs : List Config) (file : List Filed) →
        DeliversOnce rules configs file }
{}

/// In a run that is over, after a tick that the radio model planned and that wasn't refused, the
/// next tick of the station is taken by a later step, and done if the station is present then. Its
/// time is that of the tick before or, if that is later, the time at which the station's beacon is
/// due by a new random jitter. A tick after the last time is not taken.
pub fn ticks_go_on()
    ensures { (rules : Rules) (configs : List Config) (file : List Filed) →
        TicksGoOn rules configs file }
{}

/// Each tick that the radio model planned and that is done has a reason. It is the first tick of a
/// station that is present at the start, if there are beacons. Or it follows an earlier planned
/// tick of that station that wasn't refused, at the time that `ticks_go_on` has. Or the station
/// arrived by an earlier step, and the tick is later by its jitter.
pub fn ticks_are_due()
    ensures { (rules : Rules) (configs : List Config) (file : List Filed) →
        TicksAreDue rules configs file }
{}

/// In a run that is over, after a send of a station's own traffic, refused or not, the next one is
/// taken a period later by a later step, and done if the station is present then. A send after the
/// last time is not taken.
pub fn sends_go_on()
    ensures { (rules : Rules) (configs : List Config) (file : List Filed) →
        SendsGoOn rules configs file }
{}

/// Each send of traffic that is done has a reason. It is the first by a station that is present at
/// the start, at a random time below the period. Or it is a period after an earlier send of the
/// same traffic by that station. Or the station arrived by an earlier step, and the send is later
/// by a random time below the period. The traffic is one of the rules.
pub fn sends_are_due()
    ensures { (rules : Rules) (configs : List Config) (file : List Filed) →
        SendsAreDue rules configs file }
{}

/// The times of the lines of a radio model's log never fall.
pub fn logs_never_fall()
    ensures { (rules : Rules) (configs : List Config) (file : List Filed) →
        LogsNeverFall rules configs file }
{}

/// In a run that is over and loses nothing, each frame that a station sent is delivered to each
/// other one in range. It comes the delay later, if that is not after the last time. Both stations
/// are present all the time and never move.
pub fn stations_in_range_hear()
    ensures { (rules : Rules) (configs : List Config) (file : List Filed) →
        StationsInRangeHear rules configs file }
{}

/// In a radio model no frame overtakes another, if the file itself delivers none.
pub fn frames_come_in_order()
    ensures { (rules : Rules) (configs : List Config) (file : List Filed) →
        FramesComeInOrder rules configs file }
{}

/// In a run that is over and loses nothing, with a file that delivers nothing, a geobroadcast
/// reaches the n-th station of a chain at most n delays after its send, up to the last time. The
/// chain begins at the sender and has at most as many links as the packet has hops. Its stations
/// are present all the time and never move. Each one that sends is inside the area, and the next
/// one is in its range and has a location table for as many sources as there are stations. No two
/// stations share a MID. The sender never restarted and sent at most 65536 packets for areas.
pub fn reaches_in_air()
    ensures { (rules : Rules) (configs : List Config) (file : List Filed) →
        ReachesInAir rules configs file }
{}
