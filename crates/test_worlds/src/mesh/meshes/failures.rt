//! Sockets that fail, and scenarios for which no socket is made.

use super::{BEFORE, DELIVER, LINES, OPEN, SEND, STATIONS, left_of, scenario};
use crate::mesh::scripted::{Scripted, Trouble};
use cmd_mesh::MeshOptions;
use cmd_reporting::Status;
use std::alloc::{AllocError, Global};
use std::test::Fail;

/// The lines if station 1 received frame 0, and its forwarded frame wasn't sent.
const NOT_RELAYED: &str =
    "0 1 opened\n1000 0 sent 0\n1000 1 accepted port 2002 info 0 6869 sent 1\n";

/// A range of socket calls, the trouble that one of them meets, the report of it, and the lines
/// that are printed. Two sockets are made, each is asked four times after the first event, frame 0
/// is sent, and so on. A send that would block counts as failed, and a receive that would block
/// does not. Out of memory for a socket has its own report. The call after the last is never made.
static TROUBLES: [(u32, u32, Trouble, &str, &str); 15] = [
    (0, 1, Trouble::Failed, "station 0: no socket", ""),
    (1, 2, Trouble::Failed, "station 1: no socket", ""),
    (2, 10, Trouble::Failed, "station N: receive failed", LINES),
    (10, 11, Trouble::Failed, "station 0: send failed", BEFORE),
    (11, 12, Trouble::Failed, "station 0: receive failed", LINES),
    (12, 13, Trouble::Failed, "station 1: receive failed", LINES),
    (
        13,
        14,
        Trouble::Failed,
        "station 1: send failed",
        NOT_RELAYED,
    ),
    (14, 15, Trouble::Failed, "station 1: receive failed", LINES),
    (15, 17, Trouble::Failed, "station 0: receive failed", LINES),
    (17, 18, Trouble::Failed, "station 1: receive failed", LINES),
    (18, 26, Trouble::Failed, "station N: receive failed", LINES),
    (26, 27, Trouble::Failed, "", LINES),
    (
        10,
        11,
        Trouble::WouldBlock,
        "station 0: send failed",
        BEFORE,
    ),
    (12, 13, Trouble::WouldBlock, "", LINES),
    (1, 2, Trouble::OutOfMemory, "out of memory", ""),
];

/// The line on standard error of a fault: that of a station N is of the one that the call asks.
fn told(alloc: Global, fault: &str, call: u32) -> Result<String, AllocError> {
    if fault.is_empty() {
        return Ok(String::new(alloc));
    }
    let asked = format!(in alloc; "station {}", call % 2)?;
    let fault = fault.replace(alloc, "station N", asked.as_str())?;
    format!(in alloc; "geostation: {fault}\n")
}

/// Whether the mesh of a scenario, of which a call meets trouble, tells this fault, prints these
/// lines, and fails where it tells something.
fn ends_so(
    alloc: Global,
    text: &str,
    call: u32,
    trouble: Trouble,
    fault: &str,
    lines: &str,
) -> Result<bool, AllocError> {
    let said = told(alloc, fault, call)?;
    let mut sockets = Scripted::new(alloc, &[], Some((call, trouble)));
    let left = left_of(alloc, text, MeshOptions::default(), &mut sockets);
    let has_failed = left.status == Status::Failed;
    Ok(
        left.err.as_slice() == said.as_bytes()
            && left.out.as_slice() == lines.as_bytes()
            && has_failed != fault.is_empty(),
    )
}

#[test]
fn each_call_meets_trouble_in_turn(rt: HostRuntime) -> Result<(), Fail> {
    let text = scenario(rt.alloc(), STATIONS, &[OPEN, SEND, DELIVER])?;
    for &(from, to, trouble, fault, lines) in &TROUBLES {
        for call in from..to {
            let is_so = ends_so(rt.alloc(), text.as_str(), call, trouble, fault, lines)?;
            assert!(rt; is_so, "{call}: {trouble:?}");
        }
    }
    Ok(())
}

/// Station 1 closes a port that isn't open.
static REFUSED: &str = "station = 1, at = 0, do = \"close\", port = 7";

/// A refusal counts less than a socket that failed where the mesh is strict.
#[test]
fn a_socket_that_failed_counts_more_than_a_refusal(rt: HostRuntime) -> Result<(), Fail> {
    let text = scenario(rt.alloc(), STATIONS, &[REFUSED, OPEN])?;
    let strict = MeshOptions {
        strict: true,
        ..MeshOptions::default()
    };
    for (trouble, status) in [
        (None, Status::Refused),
        (Some((2, Trouble::Failed)), Status::Failed),
    ] {
        let mut sockets = Scripted::new(rt.alloc(), &[], trouble);
        let left = left_of(rt.alloc(), text.as_str(), strict, &mut sockets);
        assert!(rt; left.status == status);
    }
    Ok(())
}

/// No socket is made for a text that is no scenario.
#[test]
fn no_socket_for_no_scenario(rt: HostRuntime) {
    let mut sockets = Scripted::new(rt.alloc(), &[], None);
    let options = MeshOptions::default();
    let left = left_of(rt.alloc(), "station = 1\n", options, &mut sockets);
    assert!(rt; left.err.as_slice() == b"geostation: scenario: station\n".as_slice());
    assert!(rt; left.status == Status::Refused && left.out.is_empty());
    assert!(rt; sockets.made() == 0);
}
