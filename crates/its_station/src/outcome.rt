//! The outcome of a frame.

/// What is delivered to a port: a slice of the frame that came.
#[derive(Clone, Copy, Debug, PartialEq, Eq)]
pub struct Handed<'a> {
    /// The destination port (BTP-B).
    pub port: u16,
    /// The destination port info.
    pub info: u16,
    /// What is sent to the port, at most 1394 octets.
    pub payload: &'a [u8],
}

/// Why a frame is ignored, in the order in which that is checked.
#[derive(Clone, Copy, Debug, PartialEq, Eq)]
pub enum Why {
    /// It is to another station's link address.
    NotForMe,
    /// Its packet is the station's own.
    OwnSource,
    /// It has a BEACON or an SHB, and comes from another link address than its source's.
    SenderMismatch,
    /// It has a GBC or a GAC whose sequence number is remembered of its source.
    Duplicate,
}

/// The outcome of a frame that isn't refused.
#[derive(Debug, Drop)]
pub enum Outcome<'a> {
    /// The frame is ignored; the clock alone is set.
    Ignored(Why),
    /// Its packet is accepted.
    Accepted {
        /// What is delivered to a port, if anything is.
        handed: Option<Handed<'a>>,
        /// The frame in which the packet goes on, if it does.
        sent: Option<Vec<u8>>,
    },
}
