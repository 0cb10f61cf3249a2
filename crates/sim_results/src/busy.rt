//! How long frames keep the channel busy at a station.

use cap_linklayers::airtime::air_time;
use its_world::World;

/// Returns the air time of a frame of a world, in microseconds. 0 if there is no such frame, or it
/// was released.
pub(crate) fn frame_time(world: &World, frame: usize) -> u64 {
    match world.kept_frame(frame) {
        Some(octets) => octets_time(octets),
        None => 0,
    }
}

/// Returns the air time of a frame with these octets, in microseconds.
pub(crate) fn octets_time(octets: &[u8]) -> u64 {
    air_time(u32::try_from(octets.len()).unwrap_or(u32::MAX))
}
