//! Keys of what `show` prints of a record, as columns or as keys of an object.

ghost use Rattle.std.specs.Prelude.{◌≡◌, IfSome};
ghost use Rattle.cmd_captures.specs.Fields.{field_word, is_of_secured};

use its_headers::Kind;
use its_linkframe::PACKET;

/// A key of the object of a record.
#[derive(Clone, Copy, Debug, PartialEq, Eq)]
pub enum Field {
    /// The record's time.
    Moment,
    /// The link address of the frame's sender.
    From,
    /// The link address that it is sent to.
    To,
    /// The kind of the packet.
    Kind,
    /// Its source.
    Address,
    /// The time of the source's position.
    Tst,
    /// The latitude of that position.
    Lat,
    /// Its longitude.
    Lon,
    /// Whether it is accurate.
    Pai,
    /// The source's speed.
    Speed,
    /// Its heading.
    Heading,
    /// The lifetime's octet.
    Lt,
    /// The traffic class.
    Tc,
    /// Whether the source is mobile.
    Mobile,
    /// The remaining hop limit (RHL).
    Hops,
    /// The maximum hop limit (MHL).
    MaxHops,
    /// The packet's sequence number.
    Number,
    /// The area's shape.
    Shape,
    /// The latitude of its centre.
    Alat,
    /// The longitude of that.
    Alon,
    /// Its first distance.
    A,
    /// Its second.
    B,
    /// Its angle.
    Angle,
    /// The destination port.
    Port,
    /// The destination port info (BTP-B).
    Info,
    /// The payload for the port.
    Payload,
    /// Why the record is rejected, as a code.
    Refused,
    /// The number of the record in its file, from 0.
    Record,
    /// The number of its interface, from 0.
    Interface,
    /// How many octets of the record the file has.
    Length,
    /// The VLAN identifier of the first tag.
    Vlan,
    /// The signal at the antenna, in dBm.
    Rssi,
    /// The rate, in Mbit/s.
    Rate,
    /// Whether the record was cut and is read up to the cut.
    Cut,
    /// The media-dependent data of a single-hop broadcast.
    Media,
    /// The octets of the frame.
    Octets,
    /// Whether the frame is a retry of IEEE 802.11.
    Retry,
    /// The PSID of a signed packet.
    Psid,
    /// The generation time of a signed packet, in microseconds of TAI since 2004-01-01.
    Generated,
    /// Whether the frame is a secured one.
    Secured,
    /// Why the packet is outside the profile, as a code.
    Outside,
    /// The address of the station that the packet is for.
    Destination,
    /// The time of that station's position.
    Dtst,
    /// The latitude of that position.
    Dlat,
    /// Its longitude.
    Dlon,
    /// The address of the station that is sought.
    Sought,
    /// What follows the headers of GeoNetworking.
    Next,
    /// The source port.
    SourcePort,
}

/// All keys: first those of the object of a record, in its order, then that of a rejection, those
/// that an object has only if they are asked for, and those of packets outside the profile.
pub const FIELDS: [Field; 48] = [
    Field::Moment,
    Field::From,
    Field::To,
    Field::Kind,
    Field::Address,
    Field::Tst,
    Field::Lat,
    Field::Lon,
    Field::Pai,
    Field::Speed,
    Field::Heading,
    Field::Lt,
    Field::Tc,
    Field::Mobile,
    Field::Hops,
    Field::MaxHops,
    Field::Number,
    Field::Shape,
    Field::Alat,
    Field::Alon,
    Field::A,
    Field::B,
    Field::Angle,
    Field::Port,
    Field::Info,
    Field::Payload,
    Field::Refused,
    Field::Record,
    Field::Interface,
    Field::Length,
    Field::Vlan,
    Field::Rssi,
    Field::Rate,
    Field::Cut,
    Field::Media,
    Field::Octets,
    Field::Retry,
    Field::Psid,
    Field::Generated,
    Field::Secured,
    Field::Outside,
    Field::Destination,
    Field::Dtst,
    Field::Dlat,
    Field::Dlon,
    Field::Sought,
    Field::Next,
    Field::SourcePort,
];

/// How many of these keys the object of a frame has. They come first.
pub(crate) const FRAME_FIELDS: usize = 26;

impl Field {
    /// Its name.
    pub fn word(self) -> &'static str
        ensures { result.now ≡ field_word self }
    {
        match self {
            Field::Moment => "moment",
            Field::From => "from",
            Field::To => "to",
            Field::Kind => "kind",
            Field::Address => "address",
            Field::Tst => "tst",
            Field::Lat => "lat",
            Field::Lon => "lon",
            Field::Pai => "pai",
            Field::Speed => "speed",
            Field::Heading => "heading",
            Field::Lt => "lt",
            Field::Tc => "tc",
            Field::Mobile => "mobile",
            Field::Hops => "hops",
            Field::MaxHops => "max_hops",
            Field::Number => "number",
            Field::Shape => "shape",
            Field::Alat => "alat",
            Field::Alon => "alon",
            Field::A => "a",
            Field::B => "b",
            Field::Angle => "angle",
            Field::Port => "port",
            Field::Info => "info",
            Field::Payload => "payload",
            Field::Refused => "refused",
            Field::Record => "record",
            Field::Interface => "interface",
            Field::Length => "length",
            Field::Vlan => "vlan",
            Field::Rssi => "rssi",
            Field::Rate => "rate",
            Field::Cut => "cut",
            Field::Media => "media",
            Field::Octets => "octets",
            Field::Retry => "retry",
            Field::Psid => "psid",
            Field::Generated => "generated",
            Field::Secured => "secured",
            Field::Outside => "outside",
            Field::Destination => "destination",
            Field::Dtst => "dtst",
            Field::Dlat => "dlat",
            Field::Dlon => "dlon",
            Field::Sought => "sought",
            Field::Next => "next",
            Field::SourcePort => "source_port",
        }
    }

    /// Whether its value is there only if secured frames are read by their plain part.
    pub fn is_of_secured(self) -> bool
        ensures { result ≡ is_of_secured self }
    {
        matches!(self, Field::Psid | Field::Generated | Field::Secured)
    }

    /// Whether its value is a text, which has quotation marks in an object.
    pub(crate) fn is_text(self) -> bool {
        matches!(
            self,
            Field::From
                | Field::To
                | Field::Kind
                | Field::Address
                | Field::Shape
                | Field::Payload
                | Field::Refused
                | Field::Media
                | Field::Octets
                | Field::Outside
                | Field::Destination
                | Field::Sought
                | Field::Next
        )
    }

    /// Returns how many octets of a frame of this kind have to be there to have the value of this
    /// key: the octets up to its end (EN 302 636-4-1 clause 9), or up to the beginning of a
    /// payload. A key that isn't one of frames needs none.
    pub(crate) fn octets_needed(self, kind: Kind) -> usize {
        let (vector, payload) = match kind {
            Kind::Beacon | Kind::Shb => (PACKET + 12, PACKET + 40),
            Kind::Gbc | Kind::Gac => (PACKET + 16, PACKET + 56),
        };
        match self {
            Field::Tst => vector + 12,
            Field::Lat => vector + 16,
            Field::Lon => vector + 20,
            Field::Pai | Field::Speed => vector + 22,
            Field::Heading => vector + 24,
            Field::Alat => PACKET + 44,
            Field::Alon => PACKET + 48,
            Field::A => PACKET + 50,
            Field::B => PACKET + 52,
            Field::Angle => PACKET + 54,
            Field::Media => PACKET + 40,
            Field::Port => payload + 2,
            Field::Info | Field::Payload => payload + 4,
            // What comes before the source's address is there in each frame that was read.
            _ => vector + 8,
        }
    }

    /// Returns the key with this name, if there is one.
    pub fn named(name: &str) -> Option<Field>
        ensures { IfSome result (λ field. name.now ≡ field_word field) }
    {
        for field in FIELDS {
            if field.word() == name {
                return Some(field);
            }
        }
        None
    }
}
