//! The laws of units. Each is the contract of a function that does nothing.

ghost use Rattle.std.specs.Prelude.{List, map};
ghost use Rattle.its_model.specs.World.{Config};
ghost use Rattle.its_governor.specs.declared.rate.Limits.{Limits as GivenLimits};
ghost use Rattle.its_governor.specs.Governing.{IsNewGovernor};
ghost use Rattle.its_unit.specs.Unit.{UnitModel};
ghost use Rattle.its_unit.specs.Lawful.{IsLawful};
ghost use Rattle.its_unit.specs.Fleets.{unit_kind};
ghost use Rattle.its_unit.specs.FleetLaws.{AreNewUnits, FleetIsWorld, FleetHoldsOfSchedules};
ghost use Rattle.its_unit.specs.FleetLaws.{UnitsRun, SendsOnce, DeliversAsSent};
ghost use Rattle.its_unit.specs.FleetLaws.{FramesAreFaithful};
ghost use Rattle.its_unit.specs.Holding.{AreNewContending, ContendersSendOnce, UnitsAct};
ghost use Rattle.its_unit.specs.Holding.{UnitsHoldFrames, holding, holding_kind};
ghost use Rattle.its_unit.specs.SignedLaws.{AreNamed, DeliversAsSealed, ForwardsAsSealed};
ghost use Rattle.its_unit.specs.SignedLaws.{SignedUnitsRun, FloodsAreBounded, ForgersChangeNothing};
ghost use Rattle.its_unit.specs.SignedLaws.{ReleasesAsSealed};
ghost use Rattle.its_unit.specs.SignedOnce.{HaveHeardNothing, AcceptsOnce};

use its_model::laws::every_schedule;

/// The laws of a unit with new limits, in every list of calls: its station has made those very calls,
/// and a part of each answer passes; the frames that are forwarded, all of them and those of each
/// source, and the own packets are within the limits; a message is delivered if no copy of its packet
/// was, and not twice. Under pressure a frame is withheld for a reason that is named, one that keeps the
/// rules is forwarded, and new sources take nothing of the lower four fifths of the bucket of all.
///
/// With releases between the calls, the station within is the one that its calls alone make. What is
/// released is what the station answered when it accepted a packet, from its due time to 1000 ms after
/// it. Each frame that begins to wait is released, cancelled or dropped, or waits in the end. One that is
/// cancelled has copies of it from as many other stations as the rule asks for, since it was put. All
/// frames that are forwarded, at once or by releases, are within their rate together, and so are those
/// of each source. Own packets and deliveries keep their limits.
pub fn units_are_lawful()
    ensures { (limits : GivenLimits) (u : UnitModel) → IsNewGovernor limits u.governor →
        IsLawful limits u }
{}

/// The laws of a fleet: units that exchange the frames that they send, in every order, with losses.
///
/// - `world`: the stations within do what the stations of a world do, on the events that
///   `world_events` names. Each frame that a unit sends is the world's frame with its number, and a
///   part of each entry of the world's log passes.
/// - `schedules`: all that holds after every schedule holds of that world.
/// - `units`: each unit is a unit after the calls that the fleet makes of it, so its limits hold.
/// - `once`: no frame that a station made is sent twice.
/// - `delivered`: a message for an area that a unit delivers was sent by a unit of the fleet, to
///   that port, for an area that holds the receiver's position.
/// - `faithful`: each frame that a unit sends is its own packet, or one that a unit sent before,
///   with one hop fewer.
pub fn fleets_are_worlds()
    ensures world { (configs : List Config) (units : List UnitModel) →
        AreNewUnits unit_kind configs units → FleetIsWorld unit_kind configs units }
    ensures schedules { (configs : List Config) (units : List UnitModel) →
        FleetHoldsOfSchedules unit_kind configs units }
    ensures units { (units : List UnitModel) → UnitsRun units }
    ensures once { (units : List UnitModel) → SendsOnce units }
    ensures delivered { (configs : List Config) (units : List UnitModel) →
        AreNewUnits unit_kind configs units → DeliversAsSent unit_kind units }
    ensures faithful { (configs : List Config) (units : List UnitModel) →
        AreNewUnits unit_kind configs units → FramesAreFaithful unit_kind configs units }
{
    // A law, for the proof alone.
    every_schedule();
}

/// The laws of a fleet whose units may contend, any number of them, each by its own rule: they exchange
/// the frames that they send, at once and by releases, in every order, with losses.
///
/// - `world`: the stations within do what the stations of a world do, on the events that
///   `world_events` names. A release is no event of them. A frame that waited is the world's frame with
///   its number, and comes late. One that is cancelled or dropped is delivered to nobody.
/// - `schedules`: all that holds after every schedule holds of that world.
/// - `units`: each unit is a unit after the calls and releases that the fleet makes of it, so all laws of
///   calls and releases hold of it.
/// - `waiting`: what waits in a unit are the frames that the fleet counts as waiting, octet for octet, and
///   what a release returns is the frame that the fleet counts as sent.
/// - `once`: no frame that a station made is sent twice, so no more are sent than without contention.
/// - `delivered`: a message for an area that a unit delivers was sent by a unit of the fleet, to
///   that port, for an area that holds the receiver's position.
/// - `faithful`: each frame that a unit sends is its own packet, or one that a unit sent before,
///   with one hop fewer.
pub fn contending_fleets_are_worlds()
    ensures world { (configs : List Config) (units : List UnitModel) →
        AreNewContending configs units →
        FleetIsWorld holding_kind configs (map holding units) }
    ensures schedules { (configs : List Config) (units : List UnitModel) →
        FleetHoldsOfSchedules holding_kind configs (map holding units) }
    ensures units { (units : List UnitModel) → UnitsAct units }
    ensures waiting { (configs : List Config) (units : List UnitModel) →
        AreNewContending configs units → UnitsHoldFrames units }
    ensures once { (units : List UnitModel) → ContendersSendOnce units }
    ensures delivered { (configs : List Config) (units : List UnitModel) →
        AreNewContending configs units → DeliversAsSent holding_kind (map holding units) }
    ensures faithful { (configs : List Config) (units : List UnitModel) →
        AreNewContending configs units →
        FramesAreFaithful holding_kind configs (map holding units) }
{
    // A law, for the proof alone.
    every_schedule();
}

/// The laws of units whose frames all pass a security entity, against a forger: any octets arrive at
/// any unit, at any time. Any number of the units contend. The entities are sound: a plain part that one
/// returns for a message was sealed as this message before, for a frame that a unit of these sent
/// (`AreSound`). What an entity refuses is free. The Basic Header and the link addresses are not sealed:
/// a forger sets them.
///
/// - `delivered`: a message that a unit delivers was sent by the unit whose address its packet bears,
///   to that port, which is open; and if the packet is for an area, that area holds the receiver's
///   position.
/// - `forwarded`: each frame that a unit sends is its own packet, or one that came, with one hop
///   fewer, as the packet and the message that were sealed. Only the lifetime is that of the frame
///   that came.
/// - `released`: each frame that a unit releases is one that came, forwarded so.
/// - `units`: each unit is a unit after its own calls and releases, so all laws of units hold of it.
/// - `once`: if the entities refuse messages that were sealed over `window` ms before or after, and each
///   source sends in four windows at most as many packets for areas as a unit remembers, a unit accepts
///   no packet twice between two restarts.
/// - `bounded`: whatever arrives, what a unit forwards, at once and by releases, is within its rate.
/// - `unchanged`: octets that the entity refuses change nothing, nor do octets that are no packet with
///   the plain part that it returns.
pub fn signed_units_are_lawful()
    ensures delivered { (units : List UnitModel) → AreNamed units → DeliversAsSealed units }
    ensures forwarded { (units : List UnitModel) → ForwardsAsSealed units }
    ensures released { (units : List UnitModel) → AreNamed units → ReleasesAsSealed units }
    ensures once { (units : List UnitModel) → HaveHeardNothing units → AcceptsOnce units }
    ensures units { (units : List UnitModel) → SignedUnitsRun units }
    ensures bounded { (units : List UnitModel) → FloodsAreBounded units }
    ensures unchanged { (units : List UnitModel) → ForgersChangeNothing units }
{}
