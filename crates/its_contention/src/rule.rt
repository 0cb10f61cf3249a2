//! The rule by which a station contends (EN 302 636-4-1 annex F.3, in this profile).

ghost use Rattle.std.specs.Prelude.{◌≡◌, ◌+◌, ◌-◌, ◌≤◌, ◌<◌, ◌^◌, ◌*◌, ◌/◌, ◌↔◌, ◌%◌, min};
ghost use Rattle.std.specs.Prelude.{MatchOption, Option, IsSome};
ghost use Rattle.std.specs.Option.{option_map};
ghost use Rattle.its_geometry.specs.Offsets.{squared_distance};
ghost use Rattle.its_model.specs.Contention.{ContentionRule as Rule, IsRule, wait, shorter};

use byteorder::{BigEndian, ByteOrder};
use its_geometry::distance2;
use its_gnvalue::{Mac, Place};
use std::marker::Model;

/// How many centimetres a metre has.
const CENTIMETRES: u128 = 100;

/// How long a station waits before it forwards a packet inside its area, and how many other
/// stations have to have sent the frame in that time to cancel it. All values are in range by the
/// type.
#[derive(Clone, Copy, Debug, PartialEq, Eq)]
pub struct ContentionRule {
    min_wait: u16,
    max_wait: u16,
    range: u16,
    copies: u8,
}

impl Model for ContentionRule {
    ghost use Rattle.its_model.specs.Contention.{ContentionRule as Rule, IsRule};

    ghost Value = { Rule };

    ghost view = { λ r. record {
      min_wait = r.min_wait;
      max_wait = r.max_wait;
      range = r.range;
      copies = r.copies;
    } };

    ghost invariant = { λ r. IsRule (record {
      min_wait = r.min_wait;
      max_wait = r.max_wait;
      range = r.range;
      copies = r.copies;
    }) };

    ghost inverse = { λ r. record {
      min_wait = r.min_wait;
      max_wait = r.max_wait;
      range = r.range;
      copies = r.copies;
    } };
}

impl ContentionRule {
    /// Waits of 1 to 100 ms, a range of 1000 m, and two copies.
    pub const DEFAULT: ContentionRule = ContentionRule {
        min_wait: 1,
        max_wait: 100,
        range: 1000,
        copies: 2,
    };

    /// The rule with these values, or `None` if one is out of range: a least wait of 0 to
    /// `max_wait` milliseconds, a greatest wait of 1 to 1000 milliseconds, a range of 1 to 65535
    /// metres, and 1 to 3 copies. From a sender at that range on a frame waits least. That many
    /// other stations cancel it.
    pub fn new(min_wait: u16, max_wait: u16, range: u16, copies: u8) -> Option<ContentionRule>
        ensures made { MatchOption result
            (¬ IsRule (record {
              min_wait = min_wait;
              max_wait = max_wait;
              range = range;
              copies = copies;
            }))
            (λ r. (r ≡ record {
              min_wait = min_wait;
              max_wait = max_wait;
              range = range;
              copies = copies;
            }) × IsRule r) }
    {
        let waits = min_wait <= max_wait && 1 <= max_wait && max_wait <= 1000;
        if !waits || range < 1 || copies < 1 || copies > 3 {
            return None;
        }
        Some(ContentionRule {
            min_wait,
            max_wait,
            range,
            copies,
        })
    }

    /// The least wait, in milliseconds: 0 to `max_wait`.
    pub fn min_wait(&self) -> u16
        ensures value { result ≡ self.now.min_wait }
        ensures rule { IsRule self.now }
    {
        self.min_wait
    }

    /// The greatest wait, in milliseconds: 1 to 1000.
    pub fn max_wait(&self) -> u16
        ensures value { result ≡ self.now.max_wait }
        ensures rule { IsRule self.now }
    {
        self.max_wait
    }

    /// The distance of the sender from which on the wait is the least, in metres: 1 to 65535.
    pub fn range(&self) -> u16
        ensures value { result ≡ self.now.range }
        ensures rule { IsRule self.now }
    {
        self.range
    }

    /// How many other stations have to have sent a frame that waits to cancel it: 1 to 3.
    pub fn copies(&self) -> u8
        ensures value { result ≡ self.now.copies }
        ensures rule { IsRule self.now }
    {
        self.copies
    }

    /// How long a frame waits at a station, in milliseconds. `sender` is the position of the
    /// station that it came from, if that is known and accurate: the farther it is, the shorter is
    /// the wait. Otherwise the station's link address and the packet's sequence number spread the
    /// waits over the upper half. It takes no memory.
    pub fn wait(&self, own: Place, sender: Option<Place>, mid: Mac, number: u16) -> u16
        ensures value { result ≡ wait self.now (mid + number)
            (option_map (squared_distance own) sender) }
        ensures least { self.now.min_wait ≤ result }
        ensures greatest { result ≤ self.now.max_wait }
    {
        let span = self.max_wait - self.min_wait;
        match sender {
            Some(place) => self.max_wait - self.shorter(span, distance2(own, place)),
            None => self.max_wait - spread(span, mid, number),
        }
    }

    /// How much shorter than the greatest wait a frame waits, by the squared distance of its
    /// sender. A search by halves needs no quotient and no root of 128 bits.
    fn shorter(&self, span: u16, distance2: u64) -> u16
        requires span { span ≡ self.now.max_wait - self.now.min_wait }
        requires distance { distance2 < 2 ^ 63 }
        ensures value { result ≡ shorter self.now distance2 span }
        ensures bound { result ≤ span }
    {
        let reach = CENTIMETRES * u128::from(self.range);
        let whole = u128::from(span) * u128::from(span) * u128::from(distance2);
        let mut fits = 0;
        let mut over = span + 1;
        while over - fits > 1 {
            let middle = fits + (over - fits) / 2;
            let part = u128::from(middle) * reach;
            if part * part <= whole {
                fits = middle;
            } else {
                over = middle;
            }
        }
        fits
    }
}

/// How much shorter than the greatest wait a frame waits whose sender's position is not known.
fn spread(span: u16, mid: Mac, number: u16) -> u16
    ensures value { result ≡ (mid + number) % (span / 2 + 1) }
    ensures bound { result ≤ span }
{
    let tie = BigEndian::read_u48(&mid.octets()) + u64::from(number);
    (tie % (u64::from(span) / 2 + 1)) as u16
}
