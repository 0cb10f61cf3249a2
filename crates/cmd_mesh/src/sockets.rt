//! The sockets of stations: datagrams sent to a station and received for one, without waiting.

ghost use Rattle.std.specs.Prelude.{ℕ, ◌+◌};
ghost use Rattle.cmd_mesh.specs.Sockets.{FitsBuffer};

use std::io;

/// The result of a send.
#[derive(Clone, Copy, Debug, PartialEq, Eq)]
pub enum Sent {
    Done,
    WouldBlock,
    Failed,
}

/// The result of a receive.
#[derive(Clone, Copy, Debug, PartialEq, Eq)]
pub enum Received {
    /// A datagram of this many octets, at the start of the buffer. Octets that don't fit are cut
    /// off.
    Done(usize),
    WouldBlock,
    Failed,
}

/// A socket for each station, numbered from 0 in the order in which they are made.
pub trait Sockets {
    /// What holds for sockets that were asked for this many datagrams. Sockets that don't count may
    /// say nothing.
    ghost Asked: { Self → ℕ → Type 0 };

    /// Makes the socket of the next station. Out of memory is the error of that kind.
    fn make(&mut self) -> io::Result<()>
        ensures { (count : ℕ) → Asked self.old count → Asked self.new count };

    /// Sends a datagram from one station's socket to another's.
    fn send(&mut self, from: usize, to: usize, datagram: &[u8]) -> Sent
        ensures { (count : ℕ) → Asked self.old count → Asked self.new count };

    /// Receives a datagram for a station.
    fn receive(&mut self, station: usize, buffer: &mut [u8]) -> Received
        ensures fits { FitsBuffer result buffer.new }
        ensures asked { (count : ℕ) → Asked self.old count → Asked self.new (count + 1) };
}
