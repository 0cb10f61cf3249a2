//! The sockets of the loopback.

use cmd_mesh::{Received, Sent, Sockets, UdpSockets};
use std::test::Fail;

/// What has no room in the buffer is cut off. A socket that isn't there fails.
#[test]
fn datagrams_cross_the_loopback(rt: HostRuntime) -> Result<(), Fail> {
    let mut sockets = UdpSockets::new(&rt, rt.alloc());
    sockets.make()?;
    sockets.make()?;
    let mut buffer = [0u8; 1469];
    assert_eq!(rt; sockets.receive(1, &mut buffer), Received::WouldBlock);
    for (length, count) in [
        (5usize, 5usize),
        (0, 0),
        (1469, 1469),
        (2000, 1469),
        (65507, 1469),
    ] {
        let datagram = [7u8].repeat(rt.alloc(), length)?;
        assert_eq!(rt;
            sockets.send(0, 1, datagram.as_slice()),
            Sent::Done,
            "{length}"
        );
        assert_eq!(rt;
            sockets.receive(1, &mut buffer),
            Received::Done(count),
            "{length}"
        );
        assert!(rt; datagram.starts_with(&buffer[..count]), "{length}");
        assert_eq!(rt;
            sockets.receive(1, &mut buffer),
            Received::WouldBlock,
            "{length}"
        );
    }
    assert_eq!(rt;
        sockets.send(0, 1, [7u8].repeat(rt.alloc(), 65508)?.as_slice()),
        Sent::Failed
    );
    assert_eq!(rt; sockets.send(0, 2, b"7"), Sent::Failed);
    assert_eq!(rt; sockets.send(2, 0, b"7"), Sent::Failed);
    assert_eq!(rt; sockets.receive(2, &mut buffer), Received::Failed);
    Ok(())
}
