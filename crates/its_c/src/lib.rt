//! The station for C: what `c/geostation.h` declares (EN 302 636-4-1, in this profile).
//!
//! C holds an opaque handle, which `geostation_new` makes on the heap. Each call answers an integer
//! (`status`), and writes what it gives into the caller's buffers; it has no state but the
//! handle's, does no input or output and reads no clock. Its contract is the unit's own over the
//! handle's unit, with what C finds in its memory in place of the answer.
//!
//! The handle holds a unit (`its_unit`): the station, the limits on what goes out, forwarded frames
//! and own packets, and counts. A line of `geostation_handle_json` passes no limit, one of
//! `geostation_handle_line` does.
//!
//! # What is proved
//!
//! Each export of `c/geostation.h` but the sentences and the free is a function of this crate. Its
//! contract is about the handle's own unit and what C finds in its memory.
//!
//! The conditions are C's own: pointers that are not NULL and lie apart, lengths as they are, a
//! handle that was made and not freed, in one call at a time.
//!
//! - **State.** From `geostation_new` on, and after every call, the handle's unit represents a unit of
//!   the model: a station and its limits. This is a fact of the handle's type (`IsOpen`).
//! - **Calls.** Each call is a step of that unit (`step`, `unit_step` of `its_unit`). The status is
//!   that of its answer, and the unit afterwards is that of the step. The C caller finds the answer in
//!   its memory: the bytes of the frame at the front of the buffer, and their number; why
//!   a frame is ignored; port, info and position of a delivered payload; the fault of a bad frame.
//! - **Errors.** `NO_ROOM` is returned if a buffer has fewer than 1468 octets (`step`: `HasRoom`).
//!   Otherwise `BAD_ARGUMENT` is returned if and only if an argument is out of its range (`step`:
//!   `HasRanges`; in `geostation_new` `refused` and `taken`); for a request for an area, if its
//!   numbers describe no area. In both cases the handle is unchanged (`step`). In `geostation_seal`
//!   a bad frame comes first (`argument`). `NO_MEMORY` is returned only if the step of the model
//!   needs memory (`memory`). If the status is not 0, the station is unchanged (`unchanged`) and
//!   the lengths are 0 (`nothing`).
//! - **Beacons.** `geostation_beacon_at` returns the earliest time at which the model's `tick` with
//!   this jitter writes its beacon (`due`, `early`), and the greatest number for a jitter over 750
//!   (`never`).
//! - **Variants.** `geostation_move_at` differs from the model's call only in its time stamp, and
//!   `geostation_send_shb_with` only in lifetime and media-dependent data (`step`).
//! - **Padding.** `geostation_receive` reads the octets without the padding of a frame of at most
//!   60 octets (`IsUnpadded`). For each frame that is not refused it writes what the packet says
//!   (`reception_of`). The payload ends where the frame ends. `geostation_frame_length` returns the
//!   length of the one prefix that is a frame, or 0 (`found`, `only`).
//! - **Counts.** Each answer is counted as Rust's `Counts` does, from 0 (`new`, and in `step`).
//!   `geostation_counts` writes them, and what the limits withheld (`withheld`).
//! - **Limits.** The step of the unit is the station's, of whose answer that is kept which the limits let
//!   pass. A call that sends an own packet, and did not fail with `NO_ROOM` or `BAD_ARGUMENT`, fails
//!   with `OVER_RATE` if and only if its bucket has no room, at a time that the station accepts
//!   (`over_rate`, `limit`).
//! - **Contention.** A handle contends by the rule of its config, if that asks for it (`new`, `rule_of`).
//!   `geostation_receive` writes when a held frame is due, and whether one is cancelled (`with_reaction`).
//!   `geostation_release` is the release of the unit (`release_step`), and changes nothing of the station
//!   (`station`). It fails with `NO_ROOM` if and only if the buffer has fewer than 1468 octets, or fewer
//!   than the longest held frame (`room_for`). `geostation_next_due` returns the least due time (`due`).
//! - **A handle's life** (`new`: `HoldsNew`). For every list of calls between `geostation_new` or
//!   `geostation_new_from_config` and `geostation_free`, each status, struct and buffer is the one of a
//!   run of the unit (`lives`, `IsRun`), and all laws of a unit hold of that run (`lawful`, `IsLawful` of
//!   `its_unit`). The list says of each call what its export promises, by the same name (`CallStep`, in
//!   `step`, or in `unchanged` if it only reads). The unit makes these calls and releases, but those that
//!   are refused for a buffer, an argument or want of memory. After each call the handle stands for the unit of the
//!   run, so what a call reads is read of that unit. A line of JSON is not among these calls.
//! - **JSON.** `geostation_handle_json` answers as the model's unit does past its limits to the request
//!   (`served`). It writes compact JSON, or nothing if none could be printed. Its memory is
//!   allocated before the call is made. That its text says what was answered is tested.
//!   `geostation_handle_line` is the step of the unit, within its limits, if the line has the right
//!   that it needs; otherwise nothing changes. Each member of its struct but the length of the `id`
//!   is proved (`served`).
//! - **Queries.** `geostation_neighbour` finds the model's live neighbour with the least address
//!   above the number, and `geostation_look_up` its live source (`found`). Neither finds one at a
//!   time out of range (`none`), and no station has a group address (`group`).
//! - **Reading.** `geostation_read_frame` returns 0 if and only if the octets are a frame. It then
//!   writes each field that they encode, and where the payload is (`fields`, `frame`). Otherwise it
//!   writes the first fault (`fault`).
//! - **Secured frames.** `geostation_receive_verified` is the step of the packet that the secured frame
//!   and its plain part are (`verified_step`). What is forwarded has the message that arrived
//!   (`sealed_by`), and the payload lies in the plain part.
//!   `geostation_message` and `geostation_plain_part` return 0 if and only if the octets are a
//!   secured frame or a frame (`message`, `plain`). `geostation_seal` writes the one secured frame
//!   of a frame with this message (`sealed`). A buffer under 2310 octets is refused before anything
//!   is done (`room`, `no_room`).
//! - **Creation and release.** A new handle represents a new station with the given address, position
//!   and sizes, with new limits (`new`). If the status is not 0, there is no handle (`none`).
//!   `geostation_dispose` is safe for such a handle. That it frees all memory is tested.
//!
//! # Only tested
//!
//! - `checks/c`: the header, the sentences and codes, the version, that freeing gives all memory
//!   back, each status, allocations that fail in turn, 100,000 damaged frames under sanitizers,
//!   NULL for no octets (`c/octets.c`), both examples.
//! - `checks/abi`: that header and library have the same structs, arguments and numbers.
//!
//! # Neither proved nor tested
//!
//! Speed.
//!
//! # Trusted
//!
//! Beside the rest: `c/heap.c`, `c/text.c`, `c/octets.c` and the C compiler.
#![tactic(auto)]

mod calls;
mod config;
mod counting;
mod fault;
mod handle;
mod handle_out;
mod heap;
mod layout;
mod line;
mod queries;
mod raw_box;
mod reading;
mod receiving;
mod releasing;
mod sealing;
mod sending;
mod serving;
mod status;
mod to_area;
mod told;
mod unit_ptr;

pub use handle::Geostation;
pub use handle_out::HandleOut;
pub use layout::{
    AllCounts, AreaRequest, Config, HeldCounts, LineResult, Packet, PacketArea, PacketMessage,
    Reception, ShbOptions, ShbRequest, ToldCounts, Vector,
};
