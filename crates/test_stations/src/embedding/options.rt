//! The lifetime and the media-dependent data of a single-hop broadcast (EN 302 636-4-1).

use crate::stations::station_of;
use its_gnvalue::{Lifetime, TrafficClass};
use its_loctable::SortedTable;
use its_station::{ShbOptions, ShbRequest, Station};
use std::test::Fail;
use test_support::{LINK, PORT, SECOND, put};

/// A single-hop broadcast of `hi` from the second station, which lives 1 s, with media-dependent
/// data.
static BROADCAST: [u8; 60] = [
    0xff, 0xff, 0xff, 0xff, 0xff, 0xff, 2, 0, 0, 0, 0, 2, 0x89, 0x47, 0x11, 0, 0x05, 1, 0x20, 0x50,
    0, 0x80, 0, 6, 1, 0, 0x14, 0, 2, 0, 0, 0, 0, 2, 0, 0, 0, 0, 0, 0, 1, 0xc1, 0, 0, 0, 0, 0, 0, 0,
    0, 0x2a, 0, 0xb4, 0x7f, 7, 0xd2, 0, 0, 0x68, 0x69,
];

/// That broadcast with the lifetime of 60 s, and zeros.
fn plain_broadcast() -> [u8; 60] {
    let mut octets = BROADCAST;
    put(&mut octets, LINK + 2, &[0x1a]);
    put(&mut octets, LINK + 36, &[0; 4]);
    octets
}

fn request() -> ShbRequest<'static> {
    ShbRequest {
        port: PORT,
        info: 0,
        class: TrafficClass::from_octet(0),
        payload: b"hi",
    }
}

#[test]
fn broadcasts_have_the_options_that_are_asked_for(rt: HostRuntime) -> Result<(), Fail> {
    let mut station: Station<SortedTable> = station_of(rt.alloc(), SECOND).ok_or("no station")?;
    let options = ShbOptions {
        lifetime: Lifetime::from_octet(0x05),
        media: [0x2a, 0, 0xb4, 0x7f],
    };
    let frame = station.send_shb_for(1000, &request(), options);
    assert_eq!(rt; frame.ok().ok_or("options")?.as_slice(), &BROADCAST[..]);
    let usual = station.send_shb_for(2000, &request(), ShbOptions::default());
    assert_eq!(rt;
        usual.ok().ok_or("default")?.as_slice(),
        &plain_broadcast()[..]
    );
    let plain = station.send_shb(3000, &request());
    assert_eq!(rt;
        plain.ok().ok_or("plain")?.as_slice(),
        &plain_broadcast()[..]
    );
    Ok(())
}
