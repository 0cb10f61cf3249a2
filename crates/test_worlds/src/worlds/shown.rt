//! The stations that a world shows, and the codes and sentences of faults for which no world is
//! made.

use super::{config, new_world};
use its_world::{World, WorldFault};
use std::test::Fail;
use test_support::{FIRST, SECOND};

#[test]
fn faults_of_worlds_have_codes_and_sentences(rt: HostRuntime) -> Result<(), Fail> {
    let shared = WorldFault::SameMid(1, 3);
    assert!(rt; shared.code() == "M1" && WorldFault::NoMemory.code() == "M2");
    let said = format!(in rt.alloc(); "{shared}, {}", WorldFault::NoMemory)?;
    assert!(rt; said.as_str() == "stations 1 and 3 share a MID, out of memory");
    Ok(())
}

/// The address of the station of a number.
fn address_of(world: &World, station: usize) -> Option<u64> {
    Some(world.station(station)?.address().as_u64())
}

/// A world shows the station with a number, if there is one.
#[test]
fn a_world_shows_its_stations(rt: HostRuntime) -> Result<(), Fail> {
    let world = new_world(rt.alloc(), &[config(FIRST, 0, 0)?, config(SECOND, 449, 0)?])?;
    assert!(rt; address_of(&world, 1) == Some(SECOND) && address_of(&world, 2) == None);
    Ok(())
}
