//! What comes by a socket, whoever sent it.

use super::{AFTER, BEFORE, DELIVER, Left, SEND, STATIONS, left_of, left_with, scenario};
use crate::mesh::scripted::Scripted;
use cmd_mesh::MeshOptions;
use cmd_reporting::Status;
use std::alloc::Global;
use std::process::Abort;
use std::test::Fail;

/// The octets that these digits spell.
fn octets_of(alloc: Global, digits: &str) -> Result<Vec<u8>, Fail> {
    Ok(hex::decode(alloc, digits)?)
}

/// So many octets, of which the first are these and the others 0.
fn padded(alloc: Global, digits: &str, length: usize) -> Result<Vec<u8>, Fail> {
    let mut datagram = octets_of(alloc, digits)?;
    datagram.resize(length, 0)?;
    Ok(datagram)
}

/// Target, source and type of frame 0.
static LINK: &str = "ffffffffffff0200000000018947";

/// A frame to another station with the longest payload. The zeros of the payload are left out.
static LONGEST: &str =
    "020000000009020000000001894711001a0a2040008005760a00000000001400020000000001\
    0000000000000000000000000000000000000000000000000064";

/// Checks that the mesh printed this entry for a datagram of this length, between the lines of the
/// events, that it succeeded, and that it reported nothing else.
fn is_told_between(
    rt: &impl Abort,
    alloc: Global,
    left: &Left,
    entry: &str,
    length: usize,
) -> Result<(), Fail> {
    let want = format!(in alloc; "{BEFORE}1000 1 {entry}\n{AFTER}")?;
    assert_eq!(*rt; left.out.as_slice(), want.as_bytes(), "{length}: {entry}");
    assert_eq!(*rt; left.status, Status::Done, "{length}");
    assert!(*rt; left.err.is_empty(), "{length}");
    Ok(())
}

/// One datagram of each length that matters: what is longer than 1469 octets is cut there.
#[test]
fn datagrams_of_each_length(rt: HostRuntime) -> Result<(), Fail> {
    let cases = [
        ("", 0usize, "refused S3 L1"),
        ("00", 1, "refused S3 L1"),
        (LINK, 1468, "refused S3 L5 G2 at 0"),
        (LINK, 1469, "refused S3 L3"),
        (LINK, 2000, "refused S3 L3"),
        (LINK, 65507, "refused S3 L3"),
        ("", 65507, "refused S3 L2"),
        (LONGEST, 1467, "refused S3 L5 G1 at 1453"),
        (LONGEST, 1468, "ignored not-for-me"),
        (LONGEST, 1469, "refused S3 L3"),
    ];
    for (digits, length, entry) in cases {
        let left = left_with(rt.alloc(), &[padded(rt.alloc(), digits, length)?])?;
        is_told_between(&rt, rt.alloc(), &left, entry, length)?;
    }
    Ok(())
}

const SOURCES: u16 = 10_000;

/// The beacon of one of many sources.
fn beacon(alloc: Global, source: u16) -> Result<Vec<u8>, Fail> {
    let digits = format!(in alloc;
        "ffffffffffff02100000{source:04x}894711001a01001000800000010014000210000\
        0{source:04x}00000000000000000000000000000000"
    )?;
    octets_of(alloc, digits.as_str())
}

/// How many lines an output has that begin so.
fn lines_with(output: &[u8], start: &str) -> usize {
    output
        .split(|octet| *octet == b'\n')
        .filter(|line| line.starts_with(start.as_bytes()))
        .count()
}

/// A beacon of each source.
fn beacons(alloc: Global) -> Result<Vec<Vec<u8>>, Fail> {
    let mut planted = Vec::new(alloc);
    for source in 0..SOURCES {
        planted.push(beacon(alloc, source)?)?;
    }
    Ok(planted)
}

/// Beacons of far more sources than a location table has room for, and than 64 rounds of 64 take.
/// The first 64 are accepted, also after those of before expired.
#[test]
fn a_flood(rt: HostRuntime) -> Result<(), Fail> {
    let alloc = rt.alloc();
    let planted = beacons(alloc)?;
    let later = "station = 0, at = 21000, do = \"open\", port = 1";
    let last = "station = 0, at = 21000, do = \"close\", port = 1";
    let text = scenario(alloc, STATIONS, &[SEND, later, last])?;
    let mut sockets = Scripted::new(alloc, planted.as_slice(), None);
    let left = left_of(alloc, text.as_str(), MeshOptions::default(), &mut sockets);
    let cases = [
        ("1000 1 accepted", 64),
        ("1000 1 refused S4", 4032),
        ("1000 1", 4096),
        ("21000 0 opened", 1),
        ("21000 1 accepted", 64),
        ("21000 1 refused S4", 5841),
        ("21000 0 closed", 1),
    ];
    for (start, want) in cases {
        assert_eq!(rt; lines_with(&left.out, start), want, "{start}");
    }
    // Each round asks station 0 once, and station 1 for each datagram and once for none: 64 rounds
    // of 65 and 64 more asks, twice; then 28 full rounds, one of 17 datagrams and four quiet ones.
    assert_eq!(rt; sockets.receives, 2 * 64 * 65 + 28 * 65 + 1 + 18 + 4 * 2);
    assert_eq!(rt; left.status, Status::Done);
    assert!(rt; left.err.is_empty());
    Ok(())
}

static TICK: &str = "station = 0, at = 0, do = \"tick\", jitter = 1";

static ABSENT: &str = "station = 9, at = 0, do = \"tick\", jitter = 1";

/// How often two sockets are asked after events where nothing comes.
#[test]
fn four_quiet_rounds(rt: HostRuntime) -> Result<(), Fail> {
    let cases: [(&[&str], u32); 5] = [
        (&[], 0),
        (&[DELIVER], 0),
        (&[TICK], 8),
        (&[ABSENT], 8),
        (&[TICK, DELIVER, ABSENT], 16),
    ];
    for (events, want) in cases {
        let text = scenario(rt.alloc(), STATIONS, events)?;
        let mut sockets = Scripted::new(rt.alloc(), &[], None);
        let left = left_of(
            rt.alloc(),
            text.as_str(),
            MeshOptions::default(),
            &mut sockets,
        );
        assert_eq!(rt; left.status, Status::Done, "{text}");
        assert_eq!(rt; sockets.receives, want, "{text}");
    }
    Ok(())
}
