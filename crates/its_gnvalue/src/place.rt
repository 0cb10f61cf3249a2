//! A place on the earth.

ghost use Rattle.std.specs.Prelude.{◌≡◌, IfOk, IfErr, ◌⊎◌};
ghost use Rattle.its_gnvalue.specs.Values.{IsLatitude, IsLongitude};

use crate::fault::ValueFault;
use std::marker::Model;

/// A place on the earth, in tenths of a microdegree: a latitude of -900000000..=900000000 (north is
/// positive) and a longitude of -1800000000..=1800000000 (east is positive).
#[derive(Clone, Copy, Debug, PartialEq, Eq)]
pub struct Place {
    latitude: i32,
    longitude: i32,
}

impl Model for Place {
    ghost use Rattle.its_gnvalue.specs.Values.{Position, IsLatitude, IsLongitude};

    ghost Value = { Position };

    ghost view = { λ p. record { latitude = p.latitude; longitude = p.longitude } };

    ghost invariant = { λ p. IsLatitude p.latitude × IsLongitude p.longitude };

    ghost inverse = { λ p. record { latitude = p.latitude; longitude = p.longitude } };
}

impl Place {
    /// The place at these coordinates, or V1 where the latitude is out of range, else V2 where the
    /// longitude is.
    pub fn new(lat: i32, lon: i32) -> Result<Place, ValueFault>
        ensures made { IfOk result
            (λ p. (p ≡ record { latitude = lat; longitude = lon })
            × IsLatitude lat × IsLongitude lon) }
        ensures latitude { result ≡ Err ValueFault.LatitudeRange → ¬ IsLatitude lat }
        ensures longitude { result ≡ Err ValueFault.LongitudeRange
            → IsLatitude lat × ¬ IsLongitude lon }
        ensures only { IfErr result
            (λ f. (f ≡ ValueFault.LatitudeRange) ⊎ (f ≡ ValueFault.LongitudeRange)) }
    {
        if lat < -900_000_000 || lat > 900_000_000 {
            return Err(ValueFault::LatitudeRange);
        }
        if lon < -1_800_000_000 || lon > 1_800_000_000 {
            return Err(ValueFault::LongitudeRange);
        }
        Ok(Place::within(lat, lon))
    }

    /// The place at these coordinates, which have to be in range.
    pub fn within(lat: i32, lon: i32) -> Place
        requires latitude { IsLatitude lat }
        requires longitude { IsLongitude lon }
        ensures { result ≡ record { latitude = lat; longitude = lon } }
    {
        Place {
            latitude: lat,
            longitude: lon,
        }
    }

    /// The latitude, in tenths of a microdegree.
    pub fn lat(self) -> i32
        ensures value { result ≡ self.latitude }
        ensures range { IsLatitude self.latitude }
    {
        self.latitude
    }

    /// The longitude, in tenths of a microdegree.
    pub fn lon(self) -> i32
        ensures value { result ≡ self.longitude }
        ensures range { IsLongitude self.longitude }
    {
        self.longitude
    }
}
