//! Laws of worlds. Each is a function that does nothing and proves what it ensures.

ghost use Rattle.std.specs.Prelude.{◌≡◌, ◌<◌, ◌++◌, ◌∷◌, [], List, All, length};
ghost use Rattle.its_model.specs.World.{Config, Event, opening, world_run};
ghost use Rattle.its_world.specs.Late.{with_station};

/// A station that is added late is in the state that it would have if it had been there from the
/// beginning, since no earlier event is its own.
pub fn late_stations_were_there()
    ensures { (configs : List Config) (late : Config) (events : List Event) →
        All (λ event. event.station < length configs) events →
        world_run (opening (configs ++ late ∷ [])) events
        ≡ with_station (world_run (opening configs) events) late }
{}
