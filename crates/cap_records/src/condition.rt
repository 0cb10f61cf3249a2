//! Conditions on the frame of a record. A list of them asks that all, some or none hold.

ghost use Rattle.std.specs.Prelude.{◌≡◌, ◌==◌, ◌++◌, ◌∷◌, [], IfNone, IfSome, length};
ghost use Rattle.std.specs.List.{list_all, list_any};
ghost use Rattle.cap_records.specs.Conditions.{has_place, is_between, is_number_between, listed};
ghost use Rattle.cap_records.specs.Conditions.{meets, meets_frame};

use crate::choosing::{Kinds, Traits};
use its_geometry::{Area, contains};
use its_gnvalue::{Mac, Place};

/// How many conditions a list has at most.
pub const MOST_CONDITIONS: usize = 16;

/// A condition on a record.
#[derive(Clone, Copy, Debug, PartialEq, Eq)]
pub enum Condition {
    /// Its packet is of one of these kinds.
    Kind(Kinds),
    /// Its packet has this source GN address.
    Source(u64),
    /// Its frame was sent from this link address.
    From(Mac),
    /// Its frame was sent to this link address.
    To(Mac),
    /// Its packet is for this destination port.
    Port(u16),
    /// Its packet has a remaining hop limit from the first of these numbers to the second.
    Hops(u8, u8),
    /// Its packet has this traffic class (TC).
    Class(u8),
    /// Its packet has a sequence number from the first of these to the second.
    Number(u16, u16),
    /// Its packet has a destination area that contains this position. The border is inside.
    Area(Place),
    /// It is rejected, and so has no frame.
    Refused,
}

impl Condition {
    /// Whether the condition holds for a record with this frame, or without one. A rejected record
    /// has no frame, and only `Refused` holds for it.
    pub fn holds(&self, frame: &Option<Traits>) -> bool
        ensures { result ≡ meets self.now frame.now }
    {
        match frame {
            Some(traits) => self.holds_of(traits),
            None => matches!(self, Condition::Refused),
        }
    }

    fn holds_of(&self, frame: &Traits) -> bool
        ensures { result ≡ meets_frame self.now frame.now }
    {
        match self {
            Condition::Kind(kinds) => kinds.has(frame.kind),
            Condition::Source(source) => *source == frame.source,
            Condition::From(mac) => *mac == frame.from,
            Condition::To(mac) => *mac == frame.to,
            Condition::Port(port) => is_number_between(*port, *port, frame.port),
            Condition::Hops(least, most) => {
                is_between(u16::from(*least), u16::from(*most), u16::from(frame.left))
            }
            Condition::Class(class) => *class == frame.class,
            Condition::Number(least, most) => is_number_between(*least, *most, frame.number),
            Condition::Area(place) => has_place(*place, &frame.area),
            Condition::Refused => false,
        }
    }
}

/// Whether a number is in a range.
fn is_between(least: u16, most: u16, number: u16) -> bool
    ensures { result ≡ is_between least most number }
{
    least <= number && number <= most
}

/// Whether there is a number, and it is in a range.
fn is_number_between(least: u16, most: u16, number: Option<u16>) -> bool
    ensures { result ≡ is_number_between least most number }
{
    match number {
        Some(number) => is_between(least, most, number),
        None => false,
    }
}

/// Whether there is an area, and it contains this position.
fn has_place(place: Place, area: &Option<Area>) -> bool
    ensures { result ≡ has_place place area.now }
{
    match area {
        Some(area) => contains(area, place),
        None => false,
    }
}

/// A list of at most 16 conditions.
#[derive(Clone, Copy, Debug, PartialEq, Eq)]
pub struct Conditions {
    list: [Condition; MOST_CONDITIONS],
    count: usize,
}

impl Conditions {
    /// Returns an empty list.
    pub fn none() -> Conditions
        ensures { listed result ≡ [] }
    {
        Conditions {
            list: [Condition::Refused; MOST_CONDITIONS],
            count: 0,
        }
    }

    /// Returns the conditions, in the order in which they were added.
    pub fn as_slice(&self) -> &[Condition]
        ensures { result.now ≡ listed self.now }
    {
        &self.list[..self.count.min(MOST_CONDITIONS)]
    }

    /// Whether the list is empty.
    pub fn is_empty(&self) -> bool
        ensures { result ≡ (length (listed self.now) == 0) }
    {
        self.as_slice().is_empty()
    }

    /// Adds a condition. `None` if there are 16 already; the list is unchanged then.
    pub fn add(&mut self, condition: Condition) -> Option<()>
        ensures added { IfSome result (λ _.
            listed self.new ≡ listed self.old ++ condition ∷ []) }
        ensures full { IfNone result (self.new ≡ self.old) }
    {
        if self.count >= MOST_CONDITIONS {
            return None;
        }
        self.list[self.count] = condition;
        self.count += 1;
        Some(())
    }

    /// Whether at least one of the conditions holds for a record with this frame, or without one.
    pub fn has_one(&self, frame: &Option<Traits>) -> bool
        ensures { result ≡ list_any (λ c. meets c frame.now) (listed self.now) }
    {
        self.as_slice().iter().any(|c| c.holds(frame))
    }

    /// Whether all conditions hold for a record with this frame, or without one.
    pub fn has_all(&self, frame: &Option<Traits>) -> bool
        ensures { result ≡ list_all (λ c. meets c frame.now) (listed self.now) }
    {
        self.as_slice().iter().all(|c| c.holds(frame))
    }
}
