//! Prints the records of a capture as values of the keys that are asked for: rows of CSV (RFC
//! 4180), or objects in JSON.

use crate::field::Field;
use crate::frame_line::FrameLine;
use crate::outside_line::OutsideLine;
use crate::text::{Text, next_moment};
use cap_records::{RecordFault, RecordPlace, RecordVisitor, SeenFrame};
use cmd_reporting::Fault;
use cmd_times::{Clock, Moment};
use std::alloc::{AllocError, Global};
use std::fmt::Write as _;
use std::io;
use std::io::Write;

/// What is known about a record.
#[derive(Clone, Copy)]
struct Row<'a> {
    place: RecordPlace,
    moment: Moment,
    line: RecordLine<'a>,
}

/// The values of a record that come from its frame.
#[derive(Clone, Copy)]
enum RecordLine<'a> {
    /// It has a frame of the profile.
    Frame(FrameLine<'a>),
    /// Its packet is outside the profile.
    Outside(OutsideLine<'a>),
    /// It is rejected.
    Refused(RecordFault),
}

impl<'a> RecordLine<'a> {
    /// Returns the values of this record at this time.
    fn of(
        moment: Moment,
        seen: &Result<SeenFrame<'a>, RecordFault>,
        place: &RecordPlace,
    ) -> RecordLine<'a> {
        match seen {
            Ok(SeenFrame::Profile(frame)) => {
                RecordLine::Frame(FrameLine::of(moment, frame, place))
            }
            Ok(SeenFrame::Outside(frame)) => {
                RecordLine::Outside(OutsideLine::of(moment, frame, place))
            }
            Err(fault) => RecordLine::Refused(*fault),
        }
    }
}

impl Row<'_> {
    /// Adds the value of a key to a text, without quotation marks. Adds nothing if the record has
    /// no value.
    fn add_value_to(&self, field: Field, text: &mut Text) -> Result<(), AllocError> {
        match (field, &self.line) {
            (Field::Moment, _) => text.moment(self.moment),
            (Field::Record, _) => text.number("", self.place.number),
            (Field::Interface, _) => text.number("", self.place.interface),
            (Field::Length, _) => text.number("", self.place.length),
            (Field::Vlan | Field::Rssi | Field::Rate | Field::Retry, _) => self.add_fact_to(
                field, text,
            ),
            (Field::Refused, RecordLine::Refused(fault)) => {
                write!(text, "{}", fault.code()).map_err(|_| AllocError)
            }
            (_, RecordLine::Frame(frame)) => frame.add_value_to(field, text),
            (_, RecordLine::Outside(packet)) => packet.add_value_to(field, text),
            (_, RecordLine::Refused(_)) => Ok(()),
        }
    }

    /// Adds the value of a key of the link layer to a text. Adds nothing if the record has no
    /// value.
    fn add_fact_to(&self, field: Field, text: &mut Text) -> Result<(), AllocError> {
        let link = self.place.link;
        match field {
            Field::Vlan => match link.vlan {
                Some(vlan) => text.number("", vlan),
                None => Ok(()),
            },
            Field::Rssi => match link.signal {
                Some(signal) => text.number("", signal),
                None => Ok(()),
            },
            Field::Retry => text.word(if link.retry { "true" } else { "" }),
            _ => match link.rate {
                Some(rate) => add_rate(rate, text),
                None => Ok(()),
            },
        }
    }

    /// Whether its frame has no media-dependent data, or only zeros.
    fn has_zero_media(&self) -> bool {
        match &self.line {
            RecordLine::Frame(frame) => frame.has_zero_media(),
            RecordLine::Outside(_) | RecordLine::Refused(_) => false,
        }
    }

    /// Whether the record has a value of this key that may be an empty text.
    fn has_payload(&self) -> bool {
        match &self.line {
            RecordLine::Frame(frame) => frame.has_payload(),
            RecordLine::Outside(packet) => packet.has_payload(),
            RecordLine::Refused(_) => false,
        }
    }

    /// Whether the value of this key is a text in JSON.
    fn is_text(&self, field: Field) -> bool {
        field.is_text() || (field == Field::Moment && self.moment.is_text())
    }
}

/// Adds a rate in units of 500 kbit/s, as Mbit/s.
fn add_rate(rate: u8, text: &mut Text) -> Result<(), AllocError> {
    text.number("", rate / 2)?;
    text.word(if rate % 2 == 1 { ".5" } else { "" })
}

/// How the values of a record are printed.
#[derive(Clone, Copy, Debug, PartialEq, Eq)]
pub(crate) enum RowForm {
    /// As a row of CSV.
    Csv,
    /// As an object in JSON.
    Object,
    /// As the object of a frame that was cut, which has no media-dependent data of zeros.
    CutObject,
}

/// A row of values, or an object, for each record.
#[derive(Drop)]
pub(crate) struct Rows {
    fields: Vec<Field>,
    form: RowForm,
    clock: Clock,
    text: Text,
    /// A value in the making.
    value: Text,
}

impl Rows {
    /// Returns rows of the values of these keys, before the first row. An object has each key once.
    pub(crate) fn new(
        alloc: Global,
        keys: &[Field],
        form: RowForm,
        clock: Clock,
    ) -> Result<Rows, AllocError> {
        let mut fields = Vec::new(alloc);
        for field in keys {
            if form == RowForm::Csv || !fields.as_slice().contains(field) {
                fields.push(*field)?;
            }
        }
        Ok(Rows {
            fields,
            form,
            clock,
            text: Text::new(alloc)?,
            value: Text::new(alloc)?,
        })
    }

    /// Writes the names of the keys, as the first row of CSV.
    pub(crate) fn write_heads<W: Write>(&self, out: &mut W) -> io::Result<()> {
        let mut part = "";
        for field in self.fields.iter() {
            write!(out, "{part}{}", field.word())?;
            part = ",";
        }
        writeln!(out)
    }

    /// Prints the values of a record at a time.
    pub(crate) fn print<'f, W: Write>(
        &mut self,
        place: RecordPlace,
        moment: Moment,
        seen: Result<SeenFrame<'_>, RecordFault>,
        out: &mut W,
    ) -> Result<(), Fault<'f>> {
        let row = Row {
            place,
            moment,
            line: RecordLine::of(moment, &seen, &place),
        };
        self.text.clear();
        match self.form {
            RowForm::Csv => self.add_row(&row)?,
            RowForm::Object | RowForm::CutObject => self.add_object(&row)?,
        }
        out.write_all(self.text.as_bytes())?;
        Ok(())
    }

    /// Adds the row of a record to the text.
    fn add_row(&mut self, row: &Row<'_>) -> Result<(), AllocError> {
        let mut part = "";
        for field in self.fields.iter() {
            self.text.word(part)?;
            row.add_value_to(*field, &mut self.text)?;
            part = ",";
        }
        self.text.word("\n")
    }

    /// Adds the object of a record to the text, with the keys that the record has.
    fn add_object(&mut self, row: &Row<'_>) -> Result<(), AllocError> {
        let mut part = FIRST;
        for field in self.fields.iter() {
            if *field == Field::Media && self.form == RowForm::CutObject && row.has_zero_media() {
                continue;
            }
            part = add_key(*field, row, part, &mut self.value, &mut self.text)?;
        }
        self.text.word(if part == FIRST { "{}\n" } else { "}\n" })
    }
}

/// The text before the first key of an object, and before each further key.
const FIRST: &str = "{\"";

const NEXT: &str = ",\"";

/// Adds this separator, a key of an object and its value to the text, if the record has the key.
/// Returns the separator before the next key. The value is made in the second buffer, whose content
/// is replaced.
fn add_key(
    field: Field,
    row: &Row<'_>,
    part: &'static str,
    value: &mut Text,
    text: &mut Text,
) -> Result<&'static str, AllocError> {
    value.clear();
    row.add_value_to(field, value)?;
    if value.as_bytes().is_empty() && !(field == Field::Payload && row.has_payload()) {
        return Ok(part);
    }
    let mark = if row.is_text(field) { "\"" } else { "" };
    text.word(part)?;
    text.word(field.word())?;
    text.word("\":")?;
    text.word(mark)?;
    text.octets(value.as_bytes())?;
    text.word(mark)?;
    Ok(NEXT)
}

impl RecordVisitor for Rows {
    fn visit<'f, W: Write>(
        &mut self,
        place: RecordPlace,
        seen: Result<SeenFrame<'_>, RecordFault>,
        out: &mut W,
    ) -> Result<(), Fault<'f>> {
        let moment = next_moment(&mut self.clock, &place);
        self.print(place, moment, seen, out)
    }
}
