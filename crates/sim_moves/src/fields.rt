//! Splits a line into fields (RFC 4180, except that a row is one line: an open quotation ends with
//! it).

ghost use Rattle.std.specs.Prelude.{◌≡◌, IfOk, OnOk, Ok, true, slice_range};
ghost use Rattle.sim_moves.specs.Columns.{texts};
ghost use Rattle.sim_moves.specs.Fields.{cut, effect_of, effect_outside, fields_of};

use std::alloc::{AllocError, Global};
use std::mem;

/// The position of an octet in a field.
#[derive(Clone, Copy, Debug, PartialEq, Eq)]
pub(crate) enum FieldPart {
    /// At its beginning.
    Begin,
    /// After that, outside a quotation.
    Open,
    /// Inside a quotation.
    Quoted,
    /// After a mark inside a quotation.
    Marked,
}

/// The effect of an octet.
#[derive(Clone, Copy, Debug, PartialEq, Eq)]
pub(crate) enum Effect {
    /// It belongs to the field, which continues with this part.
    Stays(FieldPart),
    /// It is a mark, which is left out. The field continues with this part.
    Goes(FieldPart),
    /// It ends the field.
    Ends,
}

/// Returns the effect of an octet in a part of a field.
fn effect_in(separator: u8, part: FieldPart, octet: u8) -> Effect
    ensures { result ≡ effect_of separator part octet }
{
    match part {
        FieldPart::Begin if octet == b'"' => Effect::Goes(FieldPart::Quoted),
        FieldPart::Quoted if octet == b'"' => Effect::Goes(FieldPart::Marked),
        FieldPart::Quoted => Effect::Stays(FieldPart::Quoted),
        FieldPart::Marked if octet == b'"' => Effect::Stays(FieldPart::Quoted),
        FieldPart::Begin | FieldPart::Open | FieldPart::Marked => outside(separator, octet),
    }
}

/// Returns the effect of an octet outside quotation marks.
fn outside(separator: u8, octet: u8) -> Effect
    ensures { result ≡ effect_outside separator octet }
{
    if octet == separator {
        Effect::Ends
    } else {
        Effect::Stays(FieldPart::Open)
    }
}

/// Returns the fields of a line between these separators. A field that begins with a quotation mark
/// is quoted. Inside it two marks stand for one, and a single mark ends the quotation. What is
/// between that mark and the separator is added as it is.
pub(crate) fn split(alloc: Global, separator: u8, line: &[u8]) -> Result<Vec<Vec<u8>>, AllocError>
    ensures { IfOk result (λ fields.
        texts fields.items ≡ fields_of separator line.now) }
{
    let mut fields: Vec<Vec<u8>> = Vec::new(alloc);
    let mut field: Vec<u8> = Vec::new(alloc);
    let mut part = FieldPart::Begin;
    for octet in line {
        match effect_in(separator, part, *octet) {
            Effect::Stays(next) => {
                field.push(*octet)?;
                part = next;
            }
            Effect::Goes(next) => part = next,
            Effect::Ends => {
                fields.push(mem::replace(&mut field, Vec::new(alloc)))?;
                part = FieldPart::Begin;
            }
        }
    }
    fields.push(field)?;
    Ok(fields)
}

/// The bounds of a field in octets: its start and its end.
#[derive(Clone, Copy, Debug, PartialEq, Eq)]
pub(crate) struct Bound {
    pub(crate) begin: usize,
    pub(crate) end: usize,
}

/// Returns the octets within these bounds.
pub(crate) fn within(octets: &[u8], bound: Bound) -> &[u8]
    ensures { result.now ≡ slice_range octets.now bound.begin bound.end }
{
    let end = bound.end.min(octets.len());
    let begin = bound.begin.min(end);
    &octets[begin..end]
}

/// Finds the bounds of the fields of a line without a quotation mark, which replace those in the
/// list. So no field needs memory of its own. `false` if the line has a mark.
pub(crate) fn find_bounds(
    separator: u8,
    line: &[u8],
    bounds: &mut Vec<Bound>,
) -> Result<bool, AllocError>
    ensures { result ≡ Ok true → cut line.now bounds.new.items ≡ fields_of separator line.now }
{
    bounds.clear();
    let mut begin = 0;
    for (place, octet) in line.iter().enumerate() {
        if *octet == b'"' {
            return Ok(false);
        }
        if *octet == separator {
            bounds.push(Bound { begin, end: place })?;
            begin = place + 1;
        }
    }
    let end = line.len();
    bounds.push(Bound { begin, end })?;
    Ok(true)
}

/// Joins fields into one text, whose content is replaced, and notes the bounds of each.
pub(crate) fn join(
    fields: &[Vec<u8>],
    text: &mut Vec<u8>,
    bounds: &mut Vec<Bound>,
) -> Result<(), AllocError>
    ensures { OnOk result (cut text.new.items bounds.new.items ≡ texts fields.now) }
{
    text.clear();
    bounds.clear();
    for field in fields {
        let begin = text.len();
        text.extend_from_slice(field.as_slice())?;
        let end = text.len();
        bounds.push(Bound { begin, end })?;
    }
    Ok(())
}
