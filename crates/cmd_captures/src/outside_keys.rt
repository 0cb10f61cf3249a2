//! What `show` prints of a packet outside the profile after what each packet has.

use crate::field::Field;
use crate::frame_line::add_payload;
use crate::text::Text;
use cap_records::OutsideFrame;
use its_outside::{
    BtpHeader, ExtendedFields, NextHeader, Sequence, ShortVector, StandardKind, btp_header,
};
use its_words::json_lines::{Digits, Octets};
use serde::Serialize;
use std::alloc::AllocError;

/// The size of a BTP header, in octets.
const BTP_HEADER: usize = 4;

/// The keys that only some packets have, in this order.
#[derive(Clone, Copy, Serialize)]
pub(crate) struct OutsideKeys<'a> {
    /// The sequence number of a packet that is not for an area. One for an area has it with the area.
    #[serde(skip_serializing_if = "Option::is_none")]
    number: Option<u16>,
    #[serde(flatten)]
    destination: Option<DestinationKeys>,
    /// The address of the station that is sought.
    #[serde(skip_serializing_if = "Option::is_none")]
    sought: Option<Digits<8>>,
    /// What follows the headers of GeoNetworking (NH of the Common Header).
    next: &'static str,
    #[serde(flatten)]
    content: Option<ContentKeys<'a>>,
}

/// The station that a packet is for, and its position.
#[derive(Clone, Copy, Serialize)]
struct DestinationKeys {
    destination: Digits<8>,
    dtst: u32,
    dlat: i32,
    dlon: i32,
}

/// What a packet carries: the BTP header, if there is one, and the payload after it.
#[derive(Clone, Copy, Serialize)]
struct ContentKeys<'a> {
    /// The source port (BTP-A).
    #[serde(skip_serializing_if = "Option::is_none")]
    source_port: Option<u16>,
    /// The destination port.
    #[serde(skip_serializing_if = "Option::is_none")]
    port: Option<u16>,
    /// The destination port info (BTP-B).
    #[serde(skip_serializing_if = "Option::is_none")]
    info: Option<u16>,
    payload: Octets<'a>,
}

impl<'a> OutsideKeys<'a> {
    /// Returns what is printed of the packet of this frame.
    pub(crate) fn of(frame: &OutsideFrame<'a>) -> OutsideKeys<'a> {
        let extended = &frame.fields.extended;
        let next = frame.fields.common.next;
        let content = if has_content(extended) {
            Some(ContentKeys::of(next, frame.payload))
        } else {
            None
        };
        OutsideKeys {
            number: lone_sequence(extended).map(|sequence| sequence.number),
            destination: destination_of(extended).map(|vector| DestinationKeys::of(&vector)),
            sought: sought_by(extended),
            next: next_word(next),
            content,
        }
    }

    /// Whether the packet has a payload, which may be empty.
    pub(crate) fn has_payload(&self) -> bool {
        self.content.is_some()
    }

    /// Adds it to a text.
    pub(crate) fn add_to(&self, text: &mut Text) -> Result<(), AllocError> {
        if let Some(number) = self.number {
            text.number(" number ", number)?;
        }
        if let Some(destination) = &self.destination {
            destination.add_to(text)?;
        }
        if let Some(sought) = &self.sought {
            text.digits(" sought ", &sought.0)?;
        }
        match &self.content {
            Some(content) => content.add_to(self.next, text),
            None => Ok(()),
        }
    }

    /// Adds the value of a key to a text. Adds nothing if the packet has none.
    pub(crate) fn add_value_to(&self, field: Field, text: &mut Text) -> Result<(), AllocError> {
        match field {
            Field::Next => text.word(self.next),
            Field::Number => add_number(self.number, text),
            Field::Sought => match &self.sought {
                Some(sought) => text.digits("", &sought.0),
                None => Ok(()),
            },
            Field::Destination | Field::Dtst | Field::Dlat | Field::Dlon => {
                match &self.destination {
                    Some(destination) => destination.add_value_to(field, text),
                    None => Ok(()),
                }
            }
            _ => match &self.content {
                Some(content) => content.add_value_to(field, text),
                None => Ok(()),
            },
        }
    }
}

impl DestinationKeys {
    fn of(vector: &ShortVector) -> DestinationKeys {
        DestinationKeys {
            destination: Digits(vector.address.to_be_bytes()),
            dtst: vector.timestamp,
            dlat: vector.latitude,
            dlon: vector.longitude,
        }
    }

    fn add_to(&self, text: &mut Text) -> Result<(), AllocError> {
        text.digits(" destination ", &self.destination.0)?;
        text.number(" tst ", self.dtst)?;
        text.number(" lat ", self.dlat)?;
        text.number(" lon ", self.dlon)
    }

    fn add_value_to(&self, field: Field, text: &mut Text) -> Result<(), AllocError> {
        match field {
            Field::Destination => text.digits("", &self.destination.0),
            Field::Dtst => text.number("", self.dtst),
            Field::Dlat => text.number("", self.dlat),
            Field::Dlon => text.number("", self.dlon),
            _ => Ok(()),
        }
    }
}

impl<'a> ContentKeys<'a> {
    /// Returns what a packet with this next header carries in this payload.
    fn of(next: NextHeader, payload: &'a [u8]) -> ContentKeys<'a> {
        match (btp_header(next, payload), payload.get(BTP_HEADER..)) {
            (Some(BtpHeader::A(port, source)), Some(rest)) => ContentKeys {
                source_port: Some(source),
                port: Some(port),
                info: None,
                payload: Octets(rest),
            },
            (Some(BtpHeader::B(port, info)), Some(rest)) => ContentKeys {
                source_port: None,
                port: Some(port),
                info: Some(info),
                payload: Octets(rest),
            },
            _ => ContentKeys {
                source_port: None,
                port: None,
                info: None,
                payload: Octets(payload),
            },
        }
    }

    /// Adds the ports to a text, or without them the next header.
    fn add_to(&self, next: &str, text: &mut Text) -> Result<(), AllocError> {
        match (self.source_port, self.port, self.info) {
            (Some(source), Some(port), _) => {
                text.number(" btp a ", source)?;
                text.number(" ", port)?;
            }
            (_, Some(port), Some(info)) => {
                text.number(" port ", port)?;
                text.number(" info ", info)?;
            }
            _ => {
                text.word(" next ")?;
                text.word(next)?;
            }
        }
        add_payload(self.payload, text)
    }

    fn add_value_to(&self, field: Field, text: &mut Text) -> Result<(), AllocError> {
        match field {
            Field::SourcePort => add_number(self.source_port, text),
            Field::Port => add_number(self.port, text),
            Field::Info => add_number(self.info, text),
            Field::Payload => text.digits("", self.payload.0),
            _ => Ok(()),
        }
    }
}

/// Adds a number, if there is one.
fn add_number(number: Option<u16>, text: &mut Text) -> Result<(), AllocError> {
    match number {
        Some(number) => text.number("", number),
        None => Ok(()),
    }
}

/// The sequence number of a packet that is not for an area.
fn lone_sequence(extended: &ExtendedFields) -> Option<Sequence> {
    match extended {
        ExtendedFields::Guc(sequence, _)
        | ExtendedFields::Tsb(sequence)
        | ExtendedFields::LsRequest(sequence, _)
        | ExtendedFields::LsReply(sequence, _) => Some(*sequence),
        _ => None,
    }
}

/// Returns the position vector of the station that a packet is for.
fn destination_of(extended: &ExtendedFields) -> Option<ShortVector> {
    match extended {
        ExtendedFields::Guc(_, destination) | ExtendedFields::LsReply(_, destination) => {
            Some(*destination)
        }
        _ => None,
    }
}

/// Returns the address of the station that a packet seeks.
fn sought_by(extended: &ExtendedFields) -> Option<Digits<8>> {
    match extended {
        ExtendedFields::LsRequest(_, sought) => Some(Digits(sought.to_be_bytes())),
        _ => None,
    }
}

/// Whether a packet of this kind carries a payload. A BEACON and the location service carry none.
fn has_content(extended: &ExtendedFields) -> bool {
    !matches!(
        extended.kind(),
        StandardKind::Beacon | StandardKind::LsRequest | StandardKind::LsReply
    )
}

/// Returns the keyword for what follows the GeoNetworking headers.
fn next_word(next: NextHeader) -> &'static str {
    match next {
        NextHeader::Unspecified => "any",
        NextHeader::BtpA => "btp-a",
        NextHeader::BtpB => "btp-b",
        NextHeader::Ipv6 => "ipv6",
    }
}
