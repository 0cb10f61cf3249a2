//! The line of `show` for a frame.

use crate::field::Field;
use crate::secured_keys::SecuredKeys;
use crate::text::Text;
use cap_records::RecordPlace;
use cmd_times::Moment;
use its_headers::Kind;
use its_linkframe::{FrameView, PACKET};
use its_words::frames::{FrameKeys, MessageKeys, TargetKeys};
use its_words::json_lines::{Digits, Octets};
use serde::Serialize;
use std::alloc::AllocError;

/// The EtherType of GeoNetworking.
const ETHER_TYPE: [u8; 2] = [0x89, 0x47];

/// What is printed of a frame that was captured at a time, in this order: as keys in JSON, and as
/// text.
#[derive(Clone, Copy, Serialize)]
pub(crate) struct FrameLine<'a> {
    #[serde(skip_serializing_if = "Moment::is_fraction")]
    moment: Moment,
    #[serde(flatten)]
    keys: FrameKeys<'a>,
    #[serde(skip_serializing_if = "are_zeros")]
    media: Option<Digits<4>>,
    #[serde(flatten)]
    secured: Option<SecuredKeys>,
    /// The octets of the packet.
    #[serde(skip)]
    packet: &'a [u8],
    /// Where the frame was cut, if it was.
    #[serde(skip)]
    cut: Option<Cut>,
}

/// Whether a packet has no media-dependent data, or only zeros, which objects leave out.
pub(crate) fn are_zeros(media: &Option<Digits<4>>) -> bool {
    match media {
        Some(media) => media.0 == [0; 4],
        None => true,
    }
}

/// Adds media-dependent data to a text, if there are any.
pub(crate) fn add_media(media: Option<Digits<4>>, text: &mut Text) -> Result<(), AllocError> {
    match media {
        Some(media) => text.digits("", &media.0),
        None => Ok(()),
    }
}

/// Where a frame was cut.
#[derive(Clone, Copy)]
pub(crate) struct Cut {
    /// The kind of its packet.
    kind: Kind,
    /// How many octets of the frame there are.
    known: usize,
}

impl Cut {
    /// Whether the value of this key is there.
    fn has(self, field: Field) -> bool {
        field.octets_needed(self.kind) <= self.known
    }
}

/// Whether the value of this key is there, in a frame that may have been cut.
fn has(cut: Option<Cut>, field: Field) -> bool {
    match cut {
        Some(cut) => cut.has(field),
        None => true,
    }
}

impl<'a> FrameLine<'a> {
    /// Returns what is printed of the frame of a record.
    pub(crate) fn of(moment: Moment, frame: &FrameView<'a>, place: &RecordPlace) -> FrameLine<'a> {
        let cut = place.known.map(|known| Cut {
            kind: frame.packet.kind(),
            known,
        });
        let keys = FrameKeys::of(frame);
        FrameLine {
            moment,
            keys: FrameKeys {
                message: keys.message.map(|message| message_within(message, cut)),
                ..keys
            },
            media: frame.packet.media().map(Digits),
            secured: place.secured.map(|facts| SecuredKeys::of(&facts)),
            packet: frame.packet.octets(),
            cut,
        }
    }

    /// Whether its payload is there, or the beginning of it.
    pub(crate) fn has_payload(&self) -> bool {
        self.keys.message.is_some() && has(self.cut, Field::Payload)
    }

    /// Whether it has no media-dependent data, or only zeros.
    pub(crate) fn has_zero_media(&self) -> bool {
        are_zeros(&self.media)
    }

    /// Adds its line to a text, with a line feed.
    pub(crate) fn add_to(&self, text: &mut Text) -> Result<(), AllocError> {
        text.moment(self.moment)?;
        add_headers(&self.keys, self.cut, text)?;
        if let Some(message) = &self.keys.message
            && has(self.cut, Field::Info)
        {
            add_message(message, text)?;
        }
        if let Some(secured) = &self.secured {
            secured.add_to(text)?;
        }
        text.word(if self.cut.is_some() { " cut\n" } else { "\n" })
    }

    /// Returns its time.
    pub(crate) fn moment(&self) -> Moment {
        self.moment
    }

    /// Adds the value of a key to a text, as JSON has it without quotation marks. Adds nothing if
    /// the frame has no such key, or if it was cut off.
    pub(crate) fn add_value_to(&self, field: Field, text: &mut Text) -> Result<(), AllocError> {
        if !has(self.cut, field) {
            return Ok(());
        }
        match field {
            Field::Moment => text.moment(self.moment),
            Field::Cut if self.cut.is_some() => text.word("true"),
            Field::Media => add_media(self.media, text),
            Field::Octets => self.add_octets_to(text),
            Field::Psid | Field::Generated | Field::Secured => match &self.secured {
                Some(secured) => secured.add_value_to(field, text),
                None => Ok(()),
            },
            _ => add_key_value(&self.keys, field, text),
        }
    }

    /// Adds the octets of the frame that are there to a text.
    fn add_octets_to(&self, text: &mut Text) -> Result<(), AllocError> {
        text.digits("", &self.keys.to.0)?;
        text.digits("", &self.keys.from.0)?;
        text.digits("", &ETHER_TYPE)?;
        let there = match self.cut {
            Some(cut) => cut.known.saturating_sub(PACKET),
            None => self.packet.len(),
        };
        text.digits("", &self.packet[..there.min(self.packet.len())])
    }
}

/// Adds the text of the headers whose octets are there, from the link addresses to the area.
pub(crate) fn add_headers(
    keys: &FrameKeys<'_>,
    cut: Option<Cut>,
    text: &mut Text,
) -> Result<(), AllocError> {
    text.digits(" ", &keys.from.0)?;
    text.digits(" ", &keys.to.0)?;
    text.word(" ")?;
    text.word(keys.kind)?;
    text.digits(" ", &keys.address.0)?;
    add_vector(keys, cut, text)?;
    add_header(keys, text)?;
    if let Some(target) = &keys.target {
        text.number(" number ", target.number)?;
        if has(cut, Field::Angle) {
            add_area(target, text)?;
        }
    }
    Ok(())
}

/// Adds the source's position vector: position, speed, heading and time.
fn add_vector(keys: &FrameKeys<'_>, cut: Option<Cut>, text: &mut Text) -> Result<(), AllocError> {
    if has(cut, Field::Tst) {
        text.number(" tst ", keys.tst)?;
    }
    if has(cut, Field::Lat) {
        text.number(" lat ", keys.lat)?;
    }
    if has(cut, Field::Lon) {
        text.number(" lon ", keys.lon)?;
    }
    if has(cut, Field::Speed) {
        text.number(" pai ", keys.pai as u8)?;
        text.number(" speed ", keys.speed)?;
    }
    if has(cut, Field::Heading) {
        text.number(" heading ", keys.heading)?;
    }
    Ok(())
}

/// Adds the value of a key of the frame to a text, as JSON has it without quotation marks. Adds
/// nothing if the frame has no such key.
pub(crate) fn add_key_value(
    keys: &FrameKeys<'_>,
    field: Field,
    text: &mut Text,
) -> Result<(), AllocError> {
    match field {
        Field::From => text.digits("", &keys.from.0),
        Field::To => text.digits("", &keys.to.0),
        Field::Kind => text.word(keys.kind),
        Field::Address => text.digits("", &keys.address.0),
        Field::Tst => text.number("", keys.tst),
        Field::Lat => text.number("", keys.lat),
        Field::Lon => text.number("", keys.lon),
        Field::Pai => text.word(truth_word(keys.pai)),
        Field::Speed => text.number("", keys.speed),
        Field::Heading => text.number("", keys.heading),
        Field::Lt => text.number("", keys.lt),
        Field::Tc => text.number("", keys.tc),
        Field::Mobile => text.word(truth_word(keys.mobile)),
        Field::Hops => text.number("", keys.hops),
        Field::MaxHops => text.number("", keys.max_hops),
        _ => add_part_value(keys, field, text),
    }
}

/// Adds the value of a key that only some kinds have.
fn add_part_value(keys: &FrameKeys<'_>, field: Field, text: &mut Text) -> Result<(), AllocError> {
    if let Some(target) = &keys.target {
        add_target_value(target, field, text)?;
    }
    if let Some(message) = &keys.message {
        add_message_value(message, field, text)?;
    }
    Ok(())
}

/// Returns the part of a message that is there, in a frame that may have been cut. The payload ends
/// where the frame does.
fn message_within<'a>(message: MessageKeys<'a>, cut: Option<Cut>) -> MessageKeys<'a> {
    let Some(cut) = cut else {
        return message;
    };
    let octets = message.payload.0;
    let there = cut
        .known
        .saturating_sub(Field::Payload.octets_needed(cut.kind));
    MessageKeys {
        payload: Octets(&octets[..there.min(octets.len())]),
        ..message
    }
}

/// Adds what the Basic Header and the Common Header say, which each packet has.
fn add_header(keys: &FrameKeys<'_>, text: &mut Text) -> Result<(), AllocError> {
    text.digits(" lt ", &[keys.lt])?;
    text.digits(" tc ", &[keys.tc])?;
    text.number(" mobile ", keys.mobile as u8)?;
    text.number(" hops ", keys.hops)?;
    text.number("/", keys.max_hops)
}

/// Adds the area of a packet for an area.
fn add_area(target: &TargetKeys, text: &mut Text) -> Result<(), AllocError> {
    text.word(" ")?;
    text.word(target.shape)?;
    text.number(" ", target.alat)?;
    text.number(" ", target.alon)?;
    text.number(" ", target.a)?;
    text.number(" ", target.b)?;
    text.number(" ", target.angle)
}

/// Adds the value of a key of the area.
fn add_target_value(target: &TargetKeys, field: Field, text: &mut Text) -> Result<(), AllocError> {
    match field {
        Field::Number => text.number("", target.number),
        Field::Shape => text.word(target.shape),
        Field::Alat => text.number("", target.alat),
        Field::Alon => text.number("", target.alon),
        Field::A => text.number("", target.a),
        Field::B => text.number("", target.b),
        Field::Angle => text.number("", target.angle),
        _ => Ok(()),
    }
}

/// Adds what is sent to a port.
fn add_message(message: &MessageKeys<'_>, text: &mut Text) -> Result<(), AllocError> {
    text.number(" port ", message.port)?;
    text.number(" info ", message.info)?;
    add_payload(message.payload, text)
}

/// Adds a payload.
pub(crate) fn add_payload(payload: Octets<'_>, text: &mut Text) -> Result<(), AllocError> {
    if payload.0.is_empty() {
        text.word(" -")
    } else {
        text.digits(" ", payload.0)
    }
}

/// Adds the value of a key of the message.
fn add_message_value(
    message: &MessageKeys<'_>,
    field: Field,
    text: &mut Text,
) -> Result<(), AllocError> {
    match field {
        Field::Port => text.number("", message.port),
        Field::Info => text.number("", message.info),
        Field::Payload => text.digits("", message.payload.0),
        _ => Ok(()),
    }
}

/// Returns a truth value in JSON.
fn truth_word(is: bool) -> &'static str {
    if is { "true" } else { "false" }
}
