//! The long position vector of a station (EN 302 636-4-1).

ghost use Rattle.std.specs.Prelude.{◌≡◌, ◌<◌, ◌^◌, MatchResult};
ghost use Rattle.its_gnvalue.specs.Values.{IsSpeed};

use crate::address::GnAddress;
use crate::fault::ValueFault;
use crate::place::Place;
use std::marker::Model;

/// What a station says of itself: a long position vector (EN 302 636-4-1).
#[derive(Clone, Copy, Debug, PartialEq, Eq)]
pub struct LongPv {
    address: GnAddress,
    timestamp: u32,
    place: Place,
    accurate: bool,
    speed: i16,
    heading: u16,
}

impl Model for LongPv {
    ghost use Rattle.its_gnvalue.specs.Values.{PositionVector, IsSpeed};

    ghost Value = { PositionVector };

    ghost view = { λ v. record {
      address = v.address;
      timestamp = v.timestamp;
      place = v.place;
      accurate = v.accurate;
      speed = v.speed;
      heading = v.heading;
    } };

    ghost invariant = { λ v. IsSpeed v.speed };

    ghost inverse = { λ v. record {
      address = v.address;
      timestamp = v.timestamp;
      place = v.place;
      accurate = v.accurate;
      speed = v.speed;
      heading = v.heading;
    } };
}

impl LongPv {
    /// The vector of these values, or V3 where the speed is out of range. Units are those of the
    /// accessors.
    pub fn new(
        address: GnAddress,
        tst: u32,
        place: Place,
        pai: bool,
        speed: i16,
        heading: u16,
    ) -> Result<LongPv, ValueFault>
        ensures { MatchResult result
            (λ v. (v ≡ record {
              address = address;
              timestamp = tst;
              place = place;
              accurate = pai;
              speed = speed;
              heading = heading;
            }) × IsSpeed speed)
            (λ f. (f ≡ ValueFault.SpeedRange) × ¬ IsSpeed speed) }
    {
        if speed < -16384 || speed > 16383 {
            return Err(ValueFault::SpeedRange);
        }
        Ok(LongPv::within(address, tst, place, pai, speed, heading))
    }

    /// The vector of these values, of which the speed has to be in range. Units are those of the
    /// accessors.
    pub fn within(
        address: GnAddress,
        tst: u32,
        place: Place,
        pai: bool,
        speed: i16,
        heading: u16,
    ) -> LongPv
        requires { IsSpeed speed }
        ensures { result ≡ record {
          address = address;
          timestamp = tst;
          place = place;
          accurate = pai;
          speed = speed;
          heading = heading;
        } }
    {
        LongPv {
            address,
            timestamp: tst,
            place,
            accurate: pai,
            speed,
            heading,
        }
    }

    /// The address of the station.
    pub fn address(self) -> GnAddress
        ensures { result ≡ self.address }
    {
        self.address
    }

    /// The moment of the place, in milliseconds modulo 2^32.
    pub fn tst(self) -> u32
        ensures value { result ≡ self.timestamp }
        ensures fits { self.timestamp < 2 ^ 32 }
    {
        self.timestamp
    }

    /// Where the station was.
    pub fn place(self) -> Place
        ensures { result ≡ self.place }
    {
        self.place
    }

    /// Whether the place is accurate (PAI).
    pub fn pai(self) -> bool
        ensures { result ≡ self.accurate }
    {
        self.accurate
    }

    /// The speed in 0.01 m/s, from -16384 to 16383, negative backwards.
    pub fn speed(self) -> i16
        ensures value { result ≡ self.speed }
        ensures range { IsSpeed self.speed }
    {
        self.speed
    }

    /// The heading in 0.1 degree, clockwise from north, any value.
    pub fn heading(self) -> u16
        ensures value { result ≡ self.heading }
        ensures fits { self.heading < 2 ^ 16 }
    {
        self.heading
    }
}
