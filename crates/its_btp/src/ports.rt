//! The ports that are open (EN 302 636-5-1).

ghost use Rattle.std.specs.Prelude.{◌≡◌, ◌≤◌, ◌<◌, ◌∷◌, [], ◌++◌, ◌==◌};
ghost use Rattle.std.specs.Prelude.{length, filter, not, false, true, MatchResult};
ghost use Rattle.its_model.specs.History.{is_among};
ghost use Rattle.its_btp.specs.PortSets.{IsOpenFault, port_code};

use std::error::Error;
use std::fmt;
use std::marker::Model;

/// How many ports may be open at once (profile).
pub const MAX_OPEN_PORTS: usize = 64;

/// Why a port isn't opened or closed. The set is unchanged then.
#[derive(Clone, Copy, Debug, PartialEq, Eq)]
pub enum PortFault {
    /// B2: the port is open.
    AlreadyOpen,
    /// B3: 64 others are open, as many as may be.
    Full,
    /// B4: the port isn't open.
    NotOpen,
}

impl PortFault {
    /// The code that logs show.
    pub fn code(self) -> &'static str
        ensures { result.now ≡ port_code self }
    {
        match self {
            PortFault::AlreadyOpen => "B2",
            PortFault::Full => "B3",
            PortFault::NotOpen => "B4",
        }
    }
}

impl fmt::Display for PortFault {
    fn fmt<W: fmt::Write>(&self, f: &mut fmt::Formatter<W>) -> fmt::Result {
        match self {
            PortFault::AlreadyOpen => write!(f, "the port is open"),
            PortFault::Full => write!(f, "{MAX_OPEN_PORTS} other ports are open"),
            PortFault::NotOpen => write!(f, "the port isn't open"),
        }
    }
}

impl Error for PortFault {}

/// A set of at most 64 ports. It takes no memory. Contracts see the open ports as a list, each
/// once.
#[derive(Drop)]
pub struct Ports {
    /// It is before the ports: with few of them, a look at all is a look at one cache line.
    count: usize,
    ports: [u16; MAX_OPEN_PORTS],
}

impl Model for Ports {
    ghost use Rattle.std.specs.Prelude.{◌≤◌, ℕ, List, take};

    ghost Value = { List ℕ };

    ghost view = { λ p. take p.count p.ports };

    ghost invariant = { λ p. p.count ≤ 64 };
}

impl Ports {
    /// No port is open.
    pub fn new() -> Ports
        ensures { result ≡ [] }
    {
        Ports {
            ports: [0; MAX_OPEN_PORTS],
            count: 0,
        }
    }

    /// Whether a port is open.
    pub fn is_open(&self, port: u16) -> bool
        ensures { result ≡ is_among port self.now }
    {
        self.ports[..self.count].iter().any(|open| *open == port)
    }

    /// The open ports, each once, in the order in which they were opened.
    pub fn as_slice(&self) -> &[u16]
        ensures { result.now ≡ self.now }
    {
        &self.ports[..self.count]
    }

    /// Opens a port. `AlreadyOpen` (B2) where it is open, else `Full` (B3) where 64 others are; the
    /// set is unchanged then.
    pub fn open(&mut self, port: u16) -> Result<(), PortFault>
        ensures { MatchResult result
            (λ _. (is_among port self.old ≡ false) × (length self.old < 64)
            × (self.new ≡ self.old ++ port ∷ []))
            (λ f. IsOpenFault port self.old f × (self.new ≡ self.old)) }
    {
        if self.is_open(port) {
            return Err(PortFault::AlreadyOpen);
        }
        if self.count == MAX_OPEN_PORTS {
            return Err(PortFault::Full);
        }
        self.ports[self.count] = port;
        self.count += 1;
        Ok(())
    }

    /// Closes a port. `NotOpen` (B4) where it isn't open; the set is unchanged then.
    pub fn close(&mut self, port: u16) -> Result<(), PortFault>
        ensures { MatchResult result
            (λ _. (is_among port self.old ≡ true)
            × (self.new ≡ filter (λ other. not (other == port)) self.old))
            (λ f. (f ≡ PortFault.NotOpen) × (is_among port self.old ≡ false)
            × (self.new ≡ self.old)) }
    {
        if !self.is_open(port) {
            return Err(PortFault::NotOpen);
        }
        let mut left = [0; MAX_OPEN_PORTS];
        let mut count = 0;
        for other in &self.ports[..self.count] {
            if *other != port {
                left[count] = *other;
                count += 1;
            }
        }
        self.ports = left;
        self.count = count;
        Ok(())
    }

    /// Closes all ports.
    pub fn clear(&mut self)
        ensures { self.new ≡ [] }
    {
        self.count = 0;
    }
}
