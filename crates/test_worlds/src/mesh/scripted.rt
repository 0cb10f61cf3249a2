//! Sockets in memory that follow a script.

use cmd_mesh::{Received, Sent, Sockets};
use std::alloc::{AllocError, Global};
use std::collections::VecDeque;
use std::io;

/// What a call answers in place of what it is asked for.
#[derive(Clone, Copy, Debug, PartialEq, Eq)]
pub(crate) enum Trouble {
    Failed,
    WouldBlock,
    OutOfMemory,
}

/// Sockets in memory.
#[derive(Drop)]
pub(crate) struct Scripted<'a> {
    alloc: Global,
    inboxes: Vec<VecDeque<Vec<u8>>>,
    /// These come to station 1 before the first frame that it is sent.
    planted: &'a [Vec<u8>],
    /// The call that meets trouble, by its place among all calls, from 0.
    trouble: Option<(u32, Trouble)>,
    calls: u32,
    /// How many receives there were.
    pub(crate) receives: u32,
}

impl<'a> Scripted<'a> {
    /// No socket yet.
    pub(crate) fn new(
        alloc: Global,
        planted: &'a [Vec<u8>],
        trouble: Option<(u32, Trouble)>,
    ) -> Scripted<'a> {
        Scripted {
            alloc,
            inboxes: Vec::new(alloc),
            planted,
            trouble,
            calls: 0,
            receives: 0,
        }
    }

    /// How many sockets were made.
    pub(crate) fn made(&self) -> usize {
        self.inboxes.len()
    }

    /// Counts a call, and tells what trouble it meets.
    fn trouble(&mut self) -> Option<Trouble> {
        let call = self.calls;
        self.calls = call.saturating_add(1);
        match self.trouble {
            Some((place, trouble)) if place == call => Some(trouble),
            _ => None,
        }
    }

    fn deliver(&mut self, to: usize, datagram: &[u8]) -> Result<(), AllocError> {
        let Some(inbox) = self.inboxes.get_mut(to) else {
            return Err(AllocError);
        };
        if to == 1 {
            for planted in self.planted {
                inbox.push_back(planted.clone()?)?;
            }
            self.planted = &[];
        }
        inbox.push_back(Vec::from_slice(self.alloc, datagram)?)?;
        Ok(())
    }
}

impl Sockets for Scripted<'_> {
    ghost Asked = { λ _ _. Unit {0} };

    fn make(&mut self) -> io::Result<()> {
        match self.trouble() {
            Some(Trouble::OutOfMemory) => Err(io::Error::from(io::ErrorKind::OutOfMemory)),
            Some(_) => Err(io::Error::from(io::ErrorKind::Other)),
            None => {
                self.inboxes.push(VecDeque::new(self.alloc))?;
                Ok(())
            }
        }
    }

    fn send(&mut self, _from: usize, to: usize, datagram: &[u8]) -> Sent {
        match self.trouble() {
            Some(Trouble::WouldBlock) => Sent::WouldBlock,
            Some(_) => Sent::Failed,
            None => match self.deliver(to, datagram) {
                Ok(()) => Sent::Done,
                Err(_) => Sent::Failed,
            },
        }
    }

    fn receive(&mut self, station: usize, buffer: &mut [u8]) -> Received {
        self.receives = self.receives.saturating_add(1);
        match self.trouble() {
            Some(Trouble::WouldBlock) => return Received::WouldBlock,
            Some(_) => return Received::Failed,
            None => {}
        }
        let Some(inbox) = self.inboxes.get_mut(station) else {
            return Received::Failed;
        };
        let Some(datagram) = inbox.pop_front() else {
            return Received::WouldBlock;
        };
        let count = datagram.len().min(buffer.len());
        buffer[..count].copy_from_slice(&datagram.as_slice()[..count]);
        Received::Done(count)
    }
}
