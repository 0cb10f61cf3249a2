//! The structs that C and the library share: of integers alone, since C may pass memory that it
//! never wrote.

use its_governor::{Limits, Rate};

/// The outcome of a frame: `struct geostation_reception` of C.
#[repr(C)]
#[derive(Clone, Copy)]
pub struct Reception {
    /// Why the frame is ignored: 1 to 4, in the order of `Why`; 5 if the packet was delivered
    /// before; or 0.
    pub ignored: u32,
    /// 1 if a payload is delivered, otherwise 0.
    pub delivered: u32,
    /// The destination port (BTP-B) of that payload.
    pub port: u16,
    /// The destination port info.
    pub info: u16,
    /// The media-dependent data of a single-hop broadcast, otherwise zeros.
    pub media: [u8; 4],
    /// Where in the frame that came the payload begins.
    pub payload_start: usize,
    /// How many octets the payload has.
    pub payload_length: usize,
    /// How many octets are to be sent on, or 0.
    pub relay_length: usize,
    /// If the octets are no frame, the number of the fault's code, L1 to L5; otherwise 0.
    pub fault: u32,
    /// At L5 the number of the packet's fault, G1 to G12; otherwise 0.
    pub fault_kind: u32,
    /// At L5 the octet of the packet at which the field begins, or the packet's length at G1.
    pub fault_at: usize,
    /// The address of the station that made the packet.
    pub source: u64,
    /// The kind of the packet: 1 BEACON, 2 SHB, 3 GBC, 4 GAC; 0 where the octets are no frame.
    pub kind: u32,
    /// The sequence number of a GBC or GAC, otherwise 0.
    pub number: u16,
    /// The octet of the traffic class, which a relay has too.
    pub traffic_class: u8,
    /// The hops that are left (RHL).
    pub hops_left: u8,
    /// If the frame to forward is held, the time at which it is due, in milliseconds; otherwise 0.
    pub due: u64,
    /// 1 if the frame to forward is held, otherwise 0.
    pub held: u32,
    /// 1 if this frame cancelled a held one, otherwise 0.
    pub cancelled: u32,
}

impl Reception {
    /// What is said of a frame of which nothing is to be said.
    pub(crate) const NOTHING: Reception = Reception {
        ignored: 0,
        delivered: 0,
        port: 0,
        info: 0,
        media: [0; 4],
        payload_start: 0,
        payload_length: 0,
        relay_length: 0,
        fault: 0,
        fault_kind: 0,
        fault_at: 0,
        source: 0,
        kind: 0,
        number: 0,
        traffic_class: 0,
        hops_left: 0,
        due: 0,
        held: 0,
        cancelled: 0,
    };
}

/// Where a payload for all in reach goes: `struct geostation_shb_request` of C.
#[repr(C)]
#[derive(Clone, Copy)]
pub struct ShbRequest {
    /// The destination port (BTP-B).
    pub port: u16,
    /// The destination port info.
    pub info: u16,
    /// The octet of the traffic class.
    pub traffic_class: u8,
}

/// What a single-hop broadcast has besides its request: `struct geostation_shb_options` of C.
#[repr(C)]
#[derive(Clone, Copy)]
pub struct ShbOptions {
    /// The octet of the lifetime: a multiplier of six bits, then a base of two.
    pub lifetime: u8,
    /// The media-dependent data (EN 302 636-4-2): zeros if it has none.
    pub media: [u8; 4],
}

/// Where a payload for an area goes: `struct geostation_area_request` of C.
#[repr(C)]
#[derive(Clone, Copy)]
pub struct AreaRequest {
    /// The destination port (BTP-B).
    pub port: u16,
    /// The destination port info.
    pub info: u16,
    /// The octet of the traffic class.
    pub traffic_class: u8,
    /// The octet of the lifetime: a multiplier of six bits, then a base of two.
    pub lifetime: u8,
    /// How many hops the packet may take, from 1.
    pub max_hops: u8,
    /// 0 for a circle, 1 for a rectangle, 2 for an ellipse.
    pub shape: u8,
    /// The latitude of the centre, in 0.1 microdegree.
    pub latitude: i32,
    /// The longitude of the centre, in 0.1 microdegree.
    pub longitude: i32,
    /// The radius of a circle, or the half length along the angle, in metres, from 1.
    pub a: u16,
    /// The half length across the angle, in metres, from 1; of a circle it isn't read.
    pub b: u16,
    /// The angle clockwise from north, 0 to 359 degrees; of a circle it isn't read.
    pub angle: u16,
}

/// Where a station is, by its own words: `struct geostation_vector` of C.
#[repr(C)]
#[derive(Clone, Copy)]
pub struct Vector {
    /// The station's address.
    pub address: u64,
    /// The moment of the place, in milliseconds modulo 2^32.
    pub timestamp: u32,
    /// The latitude, in 0.1 microdegree.
    pub latitude: i32,
    /// The longitude, in 0.1 microdegree.
    pub longitude: i32,
    /// The speed in 0.01 m/s, from -16384 to 16383, negative backwards.
    pub speed: i16,
    /// The heading in 0.1 degree, clockwise from north.
    pub heading: u16,
    /// 1 if the place is accurate (PAI), otherwise 0.
    pub accurate: u8,
}

impl Vector {
    /// What is written where no station is found.
    pub(crate) const NOTHING: Vector = Vector {
        address: 0,
        timestamp: 0,
        latitude: 0,
        longitude: 0,
        speed: 0,
        heading: 0,
        accurate: 0,
    };
}

/// What a line of JSON asked for, and the outcome: `struct geostation_line_result` of C.
#[repr(C)]
#[derive(Clone, Copy)]
pub struct LineResult {
    /// The command, 1 to 17 in the order of `LineWord`'s list; 0 if the line has none.
    pub command: u32,
    /// 0 for a blank line, 1 if it was done, 2 if it lacks the right, 3 if it was refused, 4 if its
    /// command is missing or unknown, and 5 if it can't be read otherwise.
    pub outcome: u32,
    /// Why it was refused, as the status of the call that it asks for; otherwise 0.
    pub status: i32,
    /// The port that it opens or closes, or to which it sends; otherwise 0.
    pub port: u16,
    /// The sequence number of the GBC or GAC that it sent; otherwise 0.
    pub number: u16,
    /// The length of the payload that it sends, or asks to send; otherwise 0.
    pub payload_length: usize,
    /// The length of the answer; 0 to a blank line.
    pub answer_length: usize,
    /// The length of the value of the `id` in the answer, which begins after six octets; or 0.
    pub id_length: usize,
    /// The length of the frame that is to be sent, or that was sealed; or 0.
    pub frame_length: usize,
    /// The position vector of the station after the line.
    pub vector: Vector,
}

impl LineResult {
    /// What is written if the status isn't 0.
    pub(crate) const NOTHING: LineResult = LineResult {
        command: 0,
        outcome: 0,
        status: 0,
        port: 0,
        number: 0,
        payload_length: 0,
        answer_length: 0,
        id_length: 0,
        frame_length: 0,
        vector: Vector::NOTHING,
    };
}

/// Where a packet is to go: `struct geostation_area` of C.
#[repr(C)]
#[derive(Clone, Copy)]
pub struct PacketArea {
    /// The latitude of the centre, in 0.1 microdegree.
    pub latitude: i32,
    /// The longitude of the centre, in 0.1 microdegree.
    pub longitude: i32,
    /// The radius of a circle, or the half length along the angle, in metres.
    pub a: u16,
    /// The half length across the angle, in metres; of a circle 0.
    pub b: u16,
    /// The angle clockwise from north, 0 to 359 degrees; of a circle 0.
    pub angle: u16,
    /// 0 for a circle, 1 for a rectangle, 2 for an ellipse.
    pub shape: u8,
}

impl PacketArea {
    /// What is written of a packet that has no area.
    pub(crate) const NOTHING: PacketArea = PacketArea {
        latitude: 0,
        longitude: 0,
        a: 0,
        b: 0,
        angle: 0,
        shape: 0,
    };
}

/// What a packet brings to a port: `struct geostation_message` of C.
#[repr(C)]
#[derive(Clone, Copy)]
pub struct PacketMessage {
    /// Where in the frame the payload begins.
    pub payload_start: usize,
    /// How many octets the payload has.
    pub payload_length: usize,
    /// The destination port (BTP-B).
    pub port: u16,
    /// The destination port info.
    pub info: u16,
}

impl PacketMessage {
    /// What is written of a packet that has no message.
    pub(crate) const NOTHING: PacketMessage = PacketMessage {
        payload_start: 0,
        payload_length: 0,
        port: 0,
        info: 0,
    };
}

/// All fields of a frame: `struct geostation_packet` of C.
#[repr(C)]
#[derive(Clone, Copy)]
pub struct Packet {
    /// The link address that the frame goes to.
    pub target: [u8; 6],
    /// The link address that it comes from.
    pub source: [u8; 6],
    /// The kind of its packet: 1 BEACON, 2 SHB, 3 GBC, 4 GAC; 0 where the octets are no frame.
    pub kind: u32,
    /// The source's position vector.
    pub vector: Vector,
    /// The hops that are left (RHL).
    pub hops_left: u8,
    /// The hops that there were at most (MHL).
    pub max_hops: u8,
    /// The octet of the lifetime: a multiplier of six bits, then a base of two.
    pub lifetime: u8,
    /// The octet of the traffic class.
    pub traffic_class: u8,
    /// 1 if the source is mobile, otherwise 0.
    pub mobile: u8,
    /// The media-dependent data of an SHB, otherwise zeros.
    pub media: [u8; 4],
    /// The sequence number of a GBC or GAC, otherwise 0.
    pub number: u16,
    /// The area of a GBC or GAC, otherwise zeros.
    pub area: PacketArea,
    /// What an SHB, GBC or GAC brings to a port, otherwise zeros.
    pub message: PacketMessage,
    /// If the octets are no frame, the number of the fault's code, L1 to L5; otherwise 0.
    pub fault: u32,
    /// At L5 the number of the packet's fault, G1 to G12; otherwise 0.
    pub fault_kind: u32,
    /// At L5 the octet of the packet at which the field begins, or the packet's length at G1.
    pub fault_at: usize,
}

impl Packet {
    /// What is written of octets of which nothing is known.
    pub(crate) const NOTHING: Packet = Packet {
        target: [0; 6],
        source: [0; 6],
        kind: 0,
        vector: Vector::NOTHING,
        hops_left: 0,
        max_hops: 0,
        lifetime: 0,
        traffic_class: 0,
        mobile: 0,
        media: [0; 4],
        number: 0,
        area: PacketArea::NOTHING,
        message: PacketMessage::NOTHING,
        fault: 0,
        fault_kind: 0,
        fault_at: 0,
    };
}

/// What a station is made of: `struct geostation_config` of C, 84 octets without gaps, and four that
/// aren't read.
#[repr(C)]
#[derive(Clone, Copy)]
pub struct Config {
    /// How many octets the struct has: of a caller that knows another struct it is another.
    pub size: u64,
    /// The station's address.
    pub address: u64,
    /// The latitude, in 0.1 microdegree.
    pub latitude: i32,
    /// The longitude, in 0.1 microdegree.
    pub longitude: i32,
    /// For how many sources the location table has room, 1 to 4096.
    pub capacity: u16,
    /// How many sequence numbers of each are remembered, 1 to 64.
    pub remember: u16,
    /// Whether the station's packets say that it is mobile: 0 or not.
    pub mobile: u16,
    /// The sequence number of its first packet for an area.
    pub number: u16,
    /// Frames that the station forwards per second, 0 to 1000000. 0 is no limit.
    pub forward_rate: u32,
    /// Frames that it may forward at once, 0 to 1000000. 0 is no limit.
    pub forward_burst: u32,
    /// Frames of each source that it forwards per second, 0 to 1000000. 0 is no limit.
    pub source_rate: u32,
    /// Frames of each source that it may forward at once, 0 to 1000000. 0 is no limit.
    pub source_burst: u32,
    /// Own packets that it sends per second, beacons aside, 0 to 1000000. 0 is no limit.
    pub own_rate: u32,
    /// Own packets that it may send at once, 0 to 1000000. 0 is no limit.
    pub own_burst: u32,
    /// A packet with more hops left than this is not forwarded, 0 to 255. 0 is no limit.
    pub hop_cap: u32,
    /// Whether a packet for an area that was delivered is not delivered again: 0 or not.
    pub deliver_once: u32,
    /// How it forwards a GBC inside its area: 0 at once (simple forwarding), 1 after a wait, unless
    /// enough others send the same frame meanwhile (contention-based forwarding).
    pub area_forwarding: u32,
    /// The greatest wait, 1 to 1000 ms.
    pub contention_max: u32,
    /// The least wait, 0 to the greatest, in ms.
    pub contention_min: u32,
    /// The distance of the sender from which on the wait is the least, 1 to 65535 m.
    pub contention_range: u32,
    /// How many other stations have to send a frame that is held to cancel it, 1 to 3.
    pub contention_copies: u32,
}

impl Config {
    /// What `geostation_config_init` writes. The limits are those of `Limits::CHANNEL`. The numbers for
    /// contention are those of `ContentionRule::DEFAULT`.
    pub(crate) const USUAL: Config = Config {
        size: CONFIG_SIZE,
        address: 0,
        latitude: 0,
        longitude: 0,
        capacity: 64,
        remember: 8,
        mobile: 1,
        number: 0,
        forward_rate: Rate::CHANNEL_FORWARD.per_second,
        forward_burst: Rate::CHANNEL_FORWARD.burst,
        source_rate: Rate::CHANNEL_SOURCE.per_second,
        source_burst: Rate::CHANNEL_SOURCE.burst,
        own_rate: Rate::CHANNEL_OWN.per_second,
        own_burst: Rate::CHANNEL_OWN.burst,
        hop_cap: Limits::CHANNEL.hop_cap as u32,
        deliver_once: Limits::CHANNEL.delivers_once as u32,
        area_forwarding: 0,
        contention_max: 100,
        contention_min: 1,
        contention_range: 1000,
        contention_copies: 2,
    };
}

/// The octets of a config.
pub(crate) const CONFIG_SIZE: u64 = 88;

/// How often each thing happened, as C sees it: `struct geostation_counts` of C.
#[repr(C)]
#[derive(Clone, Copy)]
pub struct AllCounts {
    /// What the handle counts.
    pub told: ToldCounts,
    /// Frames that were not forwarded, for a limit or as an echo.
    pub suppressed: u64,
    /// Packets that were delivered before, and so neither delivered nor forwarded.
    pub repeated: u64,
    /// Own packets that were refused for their rate.
    pub over_rate: u64,
    /// Held frames; all 0 without contention.
    pub contention: HeldCounts,
}

/// How often each thing happened to held frames: the last part of `struct geostation_counts` of C.
#[repr(C)]
#[derive(Clone, Copy)]
pub struct HeldCounts {
    /// Frames that were held.
    pub held: u64,
    /// Frames that were released.
    pub released: u64,
    /// Frames that were cancelled: others had sent them.
    pub cancelled: u64,
    /// Frames that were dropped: by a restart, since they were late, or for a limit.
    pub dropped: u64,
    /// Frames that were sent at once, since 64 were held.
    pub full: u64,
}

/// How often each thing happened in calls of the station: the first part of `struct
/// geostation_counts` of C.
#[repr(C)]
#[derive(Clone, Copy)]
pub struct ToldCounts {
    /// Frames that came, whatever their outcome.
    pub received: u64,
    /// Frames whose packet was accepted.
    pub accepted: u64,
    /// Payloads that were delivered.
    pub delivered: u64,
    /// Frames that were passed on.
    pub relayed: u64,
    /// Frames ignored: to another station's link address.
    pub not_for_me: u64,
    /// Frames ignored: the station's own packet.
    pub own_source: u64,
    /// Frames ignored: a BEACON or an SHB from another link address than its source's.
    pub sender_mismatch: u64,
    /// Frames ignored: a GBC or a GAC whose sequence number is remembered.
    pub duplicate: u64,
    /// Calls refused by S1.
    pub moment_earlier: u64,
    /// Calls refused by S2.
    pub moment_too_late: u64,
    /// Calls refused by S3.
    pub frame: u64,
    /// Calls refused by S4.
    pub table_full: u64,
    /// Calls refused by S5.
    pub no_memory: u64,
    /// Calls refused by S6 to S9.
    pub other: u64,
    /// Frames of the station's own: BEACON.
    pub beacons: u64,
    /// Frames of the station's own: SHB.
    pub single_hop: u64,
    /// Frames of the station's own: GBC.
    pub geobroadcasts: u64,
    /// Frames of the station's own: GAC.
    pub geoanycasts: u64,
}
