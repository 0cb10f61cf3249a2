//! The line of `show` for a packet that the standard allows and the profile does not have.

use crate::field::Field;
use crate::frame_line::{add_headers, add_key_value, add_media, are_zeros};
use crate::outside_keys::OutsideKeys;
use crate::secured_keys::SecuredKeys;
use crate::text::Text;
use cap_records::{OutsideFrame, RecordCode, RecordFault, RecordPlace};
use cmd_times::Moment;
use its_geometry::Shape;
use its_outside::{AreaFields, ExtendedFields, Sequence};
use its_words::frames::{Explanation, FrameKeys, TargetKeys};
use its_words::json_lines::{Digits, Printed};
use serde::Serialize;
use std::alloc::AllocError;
use std::fmt;
use std::fmt::Write as _;

/// Why a packet is outside the profile. It prints as a sentence.
#[derive(Clone, Copy)]
struct OutsideReason(RecordFault);

impl fmt::Display for OutsideReason {
    fn fmt<W: fmt::Write>(&self, f: &mut fmt::Formatter<W>) -> fmt::Result {
        write!(
            f,
            "valid by the standard, rejected by the profile: {}",
            self.0
        )
    }
}

/// What is printed of a packet outside the profile that was captured at a time, in this order: as
/// keys in JSON, and as text.
#[derive(Clone, Copy, Serialize)]
pub(crate) struct OutsideLine<'a> {
    #[serde(skip_serializing_if = "Moment::is_fraction")]
    moment: Moment,
    outside: Printed<RecordCode>,
    reason: Printed<OutsideReason>,
    #[serde(flatten)]
    keys: FrameKeys<'a>,
    #[serde(flatten)]
    rest: OutsideKeys<'a>,
    #[serde(skip_serializing_if = "are_zeros")]
    media: Option<Digits<4>>,
    #[serde(flatten)]
    secured: Option<SecuredKeys>,
    /// The octets of the frame.
    #[serde(skip)]
    octets: &'a [u8],
}

impl<'a> OutsideLine<'a> {
    /// Returns what is printed of the frame of a record.
    pub(crate) fn of(
        moment: Moment,
        frame: &OutsideFrame<'a>,
        place: &RecordPlace,
    ) -> OutsideLine<'a> {
        OutsideLine {
            moment,
            outside: Printed(frame.fault.code()),
            reason: Printed(OutsideReason(frame.fault)),
            keys: keys_of(frame),
            rest: OutsideKeys::of(frame),
            media: media_of(&frame.fields.extended),
            secured: place.secured.map(|facts| SecuredKeys::of(&facts)),
            octets: frame.octets,
        }
    }

    /// Returns its time.
    pub(crate) fn moment(&self) -> Moment {
        self.moment
    }

    /// Whether it has a payload, which may be empty.
    pub(crate) fn has_payload(&self) -> bool {
        self.rest.has_payload()
    }

    /// Adds its line to a text, with the sentence of its code if codes are explained, and a line
    /// feed.
    pub(crate) fn add_to(&self, explain: bool, text: &mut Text) -> Result<(), AllocError> {
        text.moment(self.moment)?;
        write!(text, " outside {}", self.outside.0).map_err(|_| AllocError)?;
        add_headers(&self.keys, None, text)?;
        self.rest.add_to(text)?;
        if let Some(secured) = &self.secured {
            secured.add_to(text)?;
        }
        let reason = explain.then_some(self.reason.0);
        writeln!(text, "{}", Explanation(reason)).map_err(|_| AllocError)
    }

    /// Adds the value of a key to a text, as JSON has it without quotation marks. Adds nothing if
    /// the packet has no such key.
    pub(crate) fn add_value_to(&self, field: Field, text: &mut Text) -> Result<(), AllocError> {
        match field {
            Field::Outside => write!(text, "{}", self.outside.0).map_err(|_| AllocError),
            Field::Media => add_media(self.media, text),
            Field::Octets => text.digits("", self.octets),
            Field::Psid | Field::Generated | Field::Secured => match &self.secured {
                Some(secured) => secured.add_value_to(field, text),
                None => Ok(()),
            },
            _ => {
                add_key_value(&self.keys, field, text)?;
                self.rest.add_value_to(field, text)
            }
        }
    }
}

/// Returns the keys that each packet has, and the area of a packet for an area.
fn keys_of<'a>(frame: &OutsideFrame<'a>) -> FrameKeys<'a> {
    let fields = &frame.fields;
    let source = &fields.source;
    FrameKeys {
        from: Digits(frame.from.octets()),
        to: Digits(frame.to.octets()),
        kind: fields.extended.kind().word(),
        address: Digits(source.address.to_be_bytes()),
        tst: source.timestamp,
        lat: source.latitude,
        lon: source.longitude,
        pai: source.accurate,
        speed: source.speed,
        heading: source.heading,
        lt: fields.basic.lifetime.octet(),
        tc: fields.common.class.octet(),
        mobile: fields.common.mobile,
        hops: fields.basic.left,
        max_hops: fields.common.max_hops,
        target: target_of(&fields.extended),
        message: None,
    }
}

/// Returns the media-dependent data of a single-hop broadcast.
fn media_of(extended: &ExtendedFields) -> Option<Digits<4>> {
    match extended {
        ExtendedFields::Shb(media) => Some(Digits(media.to_be_bytes())),
        _ => None,
    }
}

/// Returns the sequence number and the area, if the packet is for an area.
fn target_of(extended: &ExtendedFields) -> Option<TargetKeys> {
    match extended {
        ExtendedFields::Gac(sequence, area) | ExtendedFields::Gbc(sequence, area) => {
            Some(target_in(sequence, area))
        }
        _ => None,
    }
}

fn target_in(sequence: &Sequence, area: &AreaFields) -> TargetKeys {
    TargetKeys {
        number: sequence.number,
        shape: shape_word(area.shape),
        alat: area.latitude,
        alon: area.longitude,
        a: area.a,
        b: area.b,
        angle: area.angle,
    }
}

fn shape_word(shape: Shape) -> &'static str {
    match shape {
        Shape::Circle => "circle",
        Shape::Rectangle => "rectangle",
        Shape::Ellipse => "ellipse",
    }
}
