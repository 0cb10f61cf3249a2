//! The codes and sentences of faults that no command tells: those of `decode`, the whole sentence
//! of a frame, and those of a capture behind a device, or memory, that failed.

use its_headers::{DecodeFault, Fault, FaultKind};
use its_linkframe::{CaptureFault, FrameFault};
use std::alloc::{AllocError, Global};
use std::fmt::Display;

/// What a packet with more hops left than the maximum has.
const HOPS: Fault = Fault {
    at: 10,
    kind: FaultKind::HopAboveMax,
};

/// Whether a code and a sentence print as this line.
fn are_told<C: Display, F: Display>(alloc: Global, code: &C, fault: &F, line: &str) -> bool {
    match printed(alloc, code, fault) {
        Ok(told) => told.as_str() == line,
        Err(_) => false,
    }
}

fn printed<C: Display, F: Display>(
    alloc: Global,
    code: &C,
    fault: &F,
) -> Result<String, AllocError> {
    let mut told = String::new(alloc);
    write!(told, "{code}, {fault}")?;
    Ok(told)
}

#[test]
fn faults_of_decoding(rt: HostRuntime) {
    for (fault, line) in [
        (
            DecodeFault::from(HOPS),
            "G9 at 10, more hops left than the maximum, at octet 10",
        ),
        (DecodeFault::NoMemory, "H1, out of memory"),
    ] {
        assert!(rt; are_told(rt.alloc(), &fault.code(), &fault, line));
    }
}

#[test]
fn the_fault_of_a_frame(rt: HostRuntime) {
    let fault = FrameFault::from(HOPS);
    let line = "L5 G9 at 10, no packet in the frame: more hops left than the maximum, at octet 10";
    assert!(rt; are_told(rt.alloc(), &fault.code(), &fault, line));
}

#[test]
fn faults_of_captures(rt: HostRuntime) {
    for (fault, line) in [
        (CaptureFault::Io, "C3, a call of the device failed"),
        (CaptureFault::NoMemory, "C4, out of memory"),
        (CaptureFault::Failed, "C5, an earlier call failed"),
    ] {
        assert!(rt; are_told(rt.alloc(), &fault.code(), &fault, line));
    }
}
