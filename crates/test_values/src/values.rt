//! Values: vectors, ranges and printed text.

use crate::equality::{same, same_at};
use its_gnvalue::{
    GnAddress, Hops, Lifetime, LongPv, Mac, NoMemory, NoRoom, Place, ValueFault, newer,
};
use std::test::Fail;

#[test]
fn newer_goes_round(rt: HostRuntime) {
    let rows = [
        (0, 4294967295, true),
        (2147483647, 0, true),
        (2147483648, 0, false),
        (5, 5, false),
        (0, 2147483648, false),
    ];
    for (a, b, want) in rows {
        assert_eq!(rt; newer(a, b), want, "{a} and {b}");
    }
}

#[test]
fn lifetimes(rt: HostRuntime) {
    for (octet, want) in [
        (0x1a, 60_000),
        (20 * 4, 1000),
        (5, 1000),
        (0, 0),
        (0xff, 6_300_000),
    ] {
        same_at(&rt, Lifetime::from_octet(octet).millis(), want, &octet);
    }
}

#[test]
fn the_parts_of_an_address(rt: HostRuntime) -> Result<(), Fail> {
    let address = GnAddress::from_u64(0x9402_0200_0000_0001)?;
    assert!(rt; address.manual());
    same(&rt, address.station_type(), 5);
    same(&rt, address.reserved(), 2);
    same(&rt, address.mid(), Mac::from_octets([2, 0, 0, 0, 0, 1]));
    same(
        &rt,
        address.mid().octets().as_slice(),
        [2, 0, 0, 0, 0, 1].as_slice(),
    );
    same(
        &rt,
        format!(in rt.alloc(); "{address} {}", address.mid())?.as_str(),
        "9402020000000001 020000000001",
    );
    let least = GnAddress::from_u64(0x0a)?;
    same(
        &rt,
        format!(in rt.alloc(); "{least} {}", least.mid())?.as_str(),
        "000000000000000a 00000000000a",
    );
    same(
        &rt,
        GnAddress::from_u64(0x1400_0300_0000_0001),
        Err(ValueFault::GroupMid),
    );
    Ok(())
}

#[test]
fn broadcast_is_a_group(rt: HostRuntime) {
    assert!(rt; Mac::BROADCAST.is_group());
    same(
        &rt,
        Mac::BROADCAST.octets().as_slice(),
        [0xff; 6].as_slice(),
    );
}

#[test]
fn latitude_is_judged_before_longitude(rt: HostRuntime) {
    same(
        &rt,
        Place::new(900_000_001, 1_800_000_001),
        Err(ValueFault::LatitudeRange),
    );
    same(
        &rt,
        Place::new(-900_000_001, 0),
        Err(ValueFault::LatitudeRange),
    );
    same(
        &rt,
        Place::new(900_000_000, 1_800_000_001),
        Err(ValueFault::LongitudeRange),
    );
    same(
        &rt,
        Place::new(-900_000_000, -1_800_000_001),
        Err(ValueFault::LongitudeRange),
    );
    assert!(rt; Place::new(-900_000_000, -1_800_000_000).is_ok());
    assert!(rt; Place::new(900_000_000, 1_800_000_000).is_ok());
}

#[test]
fn the_ends_of_speeds_and_hops(rt: HostRuntime) -> Result<(), Fail> {
    let address = GnAddress::from_u64(1)?;
    let place = Place::new(0, 0)?;
    for (speed, fits) in [
        (-16385, false),
        (-16384, true),
        (16383, true),
        (16384, false),
    ] {
        same_at(
            &rt,
            LongPv::new(address, 0, place, true, speed, 0).is_ok(),
            fits,
            &speed,
        );
    }
    for (left, max, fits) in [
        (0, 0, false),
        (1, 0, false),
        (1, 1, true),
        (255, 255, true),
        (2, 1, false),
    ] {
        assert_eq!(rt; Hops::new(left, max).is_some(), fits, "{left} of {max}");
    }
    Ok(())
}

#[test]
fn faults_have_a_code_and_a_sentence(rt: HostRuntime) -> Result<(), Fail> {
    let faults = [
        (
            ValueFault::LatitudeRange,
            "V1: latitude outside -90 to 90 degrees",
        ),
        (
            ValueFault::LongitudeRange,
            "V2: longitude outside -180 to 180 degrees",
        ),
        (
            ValueFault::SpeedRange,
            "V3: speed outside -163.84 to 163.83 m/s",
        ),
        (
            ValueFault::GroupMid,
            "V4: the MID of an address is a group MAC",
        ),
    ];
    for (fault, said) in faults {
        same(
            &rt,
            format!(in rt.alloc(); "{}: {fault}", fault.code())?.as_str(),
            said,
        );
    }
    same(
        &rt,
        format!(in rt.alloc(); "{}, {}", NoMemory, NoRoom)?.as_str(),
        "out of memory, no room in the slice",
    );
    Ok(())
}
