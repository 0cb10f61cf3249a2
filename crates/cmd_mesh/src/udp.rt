//! UDP sockets on 127.0.0.1.

use crate::sockets::{Received, Sent, Sockets};
use mio::net::UdpSocket;
use std::alloc::Global;
use std::io;
use std::net::{Ipv4Addr, Net, SocketAddr};

/// A socket on 127.0.0.1 for each station, at a port that the system picks.
#[derive(Drop)]
pub struct UdpSockets<'a, R> {
    rt: &'a R,
    sockets: Vec<(UdpSocket, SocketAddr)>,
}

impl<'a, R: Net> UdpSockets<'a, R> {
    /// Returns the sockets before the first is made.
    pub fn new(rt: &'a R, alloc: Global) -> UdpSockets<'a, R> {
        UdpSockets {
            rt,
            sockets: Vec::new(alloc),
        }
    }
}

impl<R: Net> Sockets for UdpSockets<'_, R> {
    ghost Asked = { λ _ _. Unit {0} };

    fn make(&mut self) -> io::Result<()> {
        let any_port = SocketAddr::from((Ipv4Addr::LOCALHOST, 0));
        let socket = UdpSocket::bind(self.rt, any_port)?;
        let address = socket.local_addr()?;
        self.sockets.push((socket, address))?;
        Ok(())
    }

    fn send(&mut self, from: usize, to: usize, datagram: &[u8]) -> Sent {
        let (Some((socket, _)), Some((_, target))) = (self.sockets.get(from), self.sockets.get(to))
        else {
            return Sent::Failed;
        };
        match socket.send_to(datagram, *target) {
            Ok(count) if count == datagram.len() => Sent::Done,
            Ok(_) => Sent::Failed,
            Err(error) if error.kind() == io::ErrorKind::WouldBlock => Sent::WouldBlock,
            Err(_) => Sent::Failed,
        }
    }

    fn receive(&mut self, station: usize, buffer: &mut [u8]) -> Received {
        let Some((socket, _)) = self.sockets.get(station) else {
            return Received::Failed;
        };
        match socket.recv_from(buffer) {
            Ok((count, _)) => Received::Done(count),
            Err(error) if error.kind() == io::ErrorKind::WouldBlock => Received::WouldBlock,
            Err(_) => Received::Failed,
        }
    }
}
