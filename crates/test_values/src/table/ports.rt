//! The header of BTP-B, and the ports that are open.

use its_btp::{PortFault, Ports, Short, join_into, split};
use its_gnvalue::NoRoom;
use std::test::Fail;

/// What is written of payloads of two ports into eight octets, and of one that has no room.
fn joined(out: &mut [u8; 8]) -> [Result<usize, NoRoom>; 2] {
    [
        join_into(2002, 0x0102, b"hi", out),
        join_into(1, 2, b"hello", out),
    ]
}

#[test]
fn a_header_is_split_and_joined(rt: HostRuntime) {
    let octets = [0x07, 0xd2, 0x01, 0x02, b'h', b'i'];
    assert!(rt; split(&octets) == Ok((2002, 0x0102, &octets[4..])));
    assert!(rt; split(&octets[..4]) == Ok((2002, 0x0102, &octets[..0])));
    assert!(rt; split(&octets[..3]) == Err(Short) && split(&octets[..0]) == Err(Short));
    let mut out = [0xff; 8];
    assert!(rt; joined(&mut out) == [Ok(6), Err(NoRoom)]);
    assert!(rt; out == [0x07, 0xd2, 0x01, 0x02, b'h', b'i', 0xff, 0xff]);
    assert!(rt; join_into(0xffff, 0, b"four", &mut out) == Ok(8));
    assert!(rt; out == [0xff, 0xff, 0, 0, b'f', b'o', b'u', b'r']);
}

/// A call on ports, with its expected result.
#[derive(Clone, Copy)]
enum Row {
    Open(u16, Result<(), PortFault>),
    Close(u16, Result<(), PortFault>),
    IsOpen(u16, bool),
    Clear,
}

fn holds(ports: &mut Ports, row: Row) -> bool {
    match row {
        Row::Open(port, want) => ports.open(port) == want,
        Row::Close(port, want) => ports.close(port) == want,
        Row::IsOpen(port, want) => ports.is_open(port) == want,
        Row::Clear => {
            ports.clear();
            true
        }
    }
}

/// Where the ports 0 to 63 are open, and no other.
static WHERE_FULL: [Row; 17] = [
    Row::Open(63, Err(PortFault::AlreadyOpen)),
    Row::Open(64, Err(PortFault::Full)),
    Row::IsOpen(0, true),
    Row::IsOpen(63, true),
    Row::IsOpen(64, false),
    Row::Close(64, Err(PortFault::NotOpen)),
    Row::Close(0, Ok(())),
    Row::IsOpen(0, false),
    Row::IsOpen(1, true),
    Row::Close(0, Err(PortFault::NotOpen)),
    Row::Open(64, Ok(())),
    Row::IsOpen(64, true),
    Row::Clear,
    Row::IsOpen(64, false),
    Row::IsOpen(1, false),
    Row::Open(2002, Ok(())),
    Row::IsOpen(2002, true),
];

#[test]
fn at_most_64_ports_are_open(rt: HostRuntime) {
    let mut ports = Ports::new();
    assert!(rt; !ports.is_open(0));
    for port in 0..64 {
        assert!(rt; holds(&mut ports, Row::Open(port, Ok(()))), "{port}");
    }
    for (number, row) in WHERE_FULL.iter().enumerate() {
        assert!(rt; holds(&mut ports, *row), "row {number}");
    }
}

#[test]
fn a_header_that_is_short_has_a_code_and_a_sentence(rt: HostRuntime) -> Result<(), Fail> {
    let told = format!(in rt.alloc(); "{}: {Short}", Short.code())?;
    assert!(rt; told.as_str() == "B1: too short for a BTP-B header");
    Ok(())
}
