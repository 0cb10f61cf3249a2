//! The example of the README and of the station's documentation, as a loop over what comes.

mod counts;
mod known;
mod mobile;
mod options;
mod roadside;

use its_faults::{Fault, FaultKind, FrameFault};
use its_gnvalue::{GnAddress, Place};
use its_loctable::SortedTable;
use its_station::{Outcome, Refused, RefusedCode, Station};
use std::alloc::{AllocError, Global};
use std::test::Fail;
use test_support::{GEOBROADCAST_OCTETS, beacon_of};

/// What the example keeps.
#[derive(Drop)]
struct Kept {
    inbox: Vec<u8>,
    outbox: Vec<Vec<u8>>,
    log: Vec<RefusedCode>,
}

/// The loop of the example.
fn serve(
    station: &mut Station<SortedTable>,
    link: &[(u64, &[u8])],
    kept: &mut Kept,
) -> Result<(), AllocError> {
    let Kept { inbox, outbox, log } = kept;
    for (now, octets) in link {
        match station.receive(*now, octets) {
            Ok(Outcome::Accepted { handed, sent }) => {
                if let Some(message) = handed {
                    inbox.extend_from_slice(message.payload)?;
                }
                if let Some(frame) = sent {
                    outbox.push(frame)?;
                }
            }
            Ok(Outcome::Ignored(_)) => {}
            Err(refused) => log.push(refused.code())?,
        }
        match station.tick(*now, 0) {
            Ok(Some(beacon)) => outbox.push(beacon)?,
            Ok(None) => {}
            Err(refused) => log.push(refused.code())?,
        }
    }
    Ok(())
}

/// The station of the example, but for its table, which has one place.
fn station_of_the_example(alloc: Global) -> Option<Station<SortedTable>> {
    let address = GnAddress::from_u64(0x1400_0200_0000_0002).ok()?;
    let here = Place::new(449, 0).ok()?;
    Station::new(alloc, address, here, 1, 8).ok()
}

/// What is kept of a link: junk, a beacon that fills the table, a moment of the past, a source too
/// many, a message.
fn kept_of_link(alloc: Global) -> Option<Kept> {
    let mut kept = Kept {
        inbox: Vec::new(alloc),
        outbox: Vec::new(alloc),
        log: Vec::new(alloc),
    };
    let (first, ninth) = (beacon_of(1), beacon_of(9));
    let link = [
        (1000, [0xff].as_slice()),
        (1001, &first),
        (999, &first),
        (1002, &ninth),
        (1010, &GEOBROADCAST_OCTETS),
    ];
    let mut station = station_of_the_example(alloc)?;
    station.open(0, 2002).ok()?;
    serve(&mut station, &link, &mut kept).ok()?;
    Some(kept)
}

/// The lines of a log.
fn lines_of(alloc: Global, log: &[RefusedCode]) -> Result<String, AllocError> {
    let mut lines = String::new(alloc);
    for code in log {
        writeln!(lines, "{code}")?;
    }
    Ok(lines)
}

/// The lengths of the first two frames, and how many there are.
fn lengths_of(frames: &[Vec<u8>]) -> Option<(usize, usize, usize)> {
    Some((frames.first()?.len(), frames.get(1)?.len(), frames.len()))
}

/// The frames that are sent are a beacon, and the message that goes on.
#[test]
fn the_example_runs(rt: HostRuntime) -> Result<(), Fail> {
    let kept = kept_of_link(rt.alloc()).ok_or("no station, or out of memory")?;
    assert!(rt; kept.inbox.as_slice() == b"hi".as_slice());
    assert!(rt; lengths_of(&kept.outbox) == Some((50, 76, 2)));
    assert!(rt; lines_of(rt.alloc(), &kept.log)?.as_str() == "S3 L1\nS1\nS1\nS4\n");
    Ok(())
}

/// What a station prints that gave a beacon.
fn printed(alloc: Global) -> Option<String> {
    let mut station = station_of_the_example(alloc)?;
    match station.tick(1000, 0) {
        Ok(Some(_)) => format!(in alloc; "{station:?}").ok(),
        Ok(None) | Err(_) => None,
    }
}

/// The table is left out of what a station prints for whoever debugs.
#[test]
fn a_station_prints_but_for_its_table(rt: HostRuntime) -> Result<(), Fail> {
    let text = printed(rt.alloc()).ok_or("no beacon")?;
    assert!(rt; text.as_str().starts_with("Station { vector: LongPv { "));
    let end = " }, clock: 1000, next_number: 0, beacon_from: 4000, .. }";
    assert!(rt; text.as_str().ends_with(end));
    Ok(())
}

/// Whether a refusal prints so, behind its code.
fn prints(alloc: Global, refused: Refused, want: &str) -> bool {
    match format!(in alloc; "{}: {refused}", refused.code()) {
        Ok(told) => told.as_str() == want,
        Err(_) => false,
    }
}

/// The two refusals that the program's lines print differently, or never.
#[test]
fn refusals_have_codes_and_sentences(rt: HostRuntime) -> Result<(), Fail> {
    let hops = Fault {
        at: 10,
        kind: FaultKind::HopAboveMax,
    };
    let packet = Refused::Frame(FrameFault::Packet(hops));
    let want = "S3 L5 G9 at 10: no packet in the frame: \
        more hops left than the maximum, at octet 10";
    assert!(rt; prints(rt.alloc(), packet, want));
    assert!(rt; prints(rt.alloc(), Refused::NoMemory, "S5: out of memory"));
    Ok(())
}
