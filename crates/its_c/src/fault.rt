//! What is wrong with octets that are no frame or no secured frame, in the numbers of C.

ghost use Rattle.std.specs.Prelude.{◌≡◌};
ghost use Rattle.its_c.specs.Told.{layer_of, kind_of, place_in, number_of_kind};
ghost use Rattle.its_c.specs.Told.{secured_layer, secured_kind, secured_place};

use its_faults::{Fault, FaultKind, FrameFault, SecuredFault};

/// A fault as numbers.
#[derive(Clone, Copy)]
pub(crate) struct FaultNumbers {
    /// The number of its code, L1 to L6.
    pub(crate) layer: u32,
    /// At L5 and L6 the number of the packet's fault, G1 to G12; otherwise 0.
    pub(crate) kind: u32,
    /// At L5 and L6 the octet of the packet at which the field begins; otherwise 0.
    pub(crate) at: usize,
}

impl FaultNumbers {
    /// The numbers of a fault.
    pub(crate) fn of(fault: FrameFault) -> FaultNumbers
        ensures layer { result.layer ≡ layer_of fault }
        ensures kind { result.kind ≡ kind_of fault }
        ensures at { result.at ≡ place_in fault }
    {
        match fault {
            FrameFault::Short => of_frame(1),
            FrameFault::EtherType => of_frame(2),
            FrameFault::TooLong => of_frame(3),
            FrameFault::Trailing => of_frame(4),
            FrameFault::Packet(fault) => of_packet(5, fault),
        }
    }

    /// The numbers of a secured frame's fault.
    pub(crate) fn of_secured(fault: SecuredFault) -> FaultNumbers
        ensures layer { result.layer ≡ secured_layer fault }
        ensures kind { result.kind ≡ secured_kind fault }
        ensures at { result.at ≡ secured_place fault }
    {
        match fault {
            SecuredFault::Short => of_frame(1),
            SecuredFault::EtherType => of_frame(2),
            SecuredFault::TooLong => of_frame(3),
            SecuredFault::Trailing => of_frame(4),
            SecuredFault::Packet(fault) => of_packet(5, fault),
            SecuredFault::Inner(fault) => of_packet(6, fault),
        }
    }
}

/// A fault of a packet.
fn of_packet(layer: u32, fault: Fault) -> FaultNumbers
    ensures { result
        ≡ record { layer = layer; kind = number_of_kind fault.kind; at = fault.at } }
{
    FaultNumbers {
        layer,
        kind: number_of_kind(fault.kind),
        at: fault.at,
    }
}

/// A fault of the frame's own.
fn of_frame(layer: u32) -> FaultNumbers
    ensures { result ≡ record { layer = layer; kind = 0; at = 0 } }
{
    FaultNumbers {
        layer,
        kind: 0,
        at: 0,
    }
}

fn number_of_kind(kind: FaultKind) -> u32
    ensures { result ≡ number_of_kind kind }
{
    match kind {
        FaultKind::Truncated => 1,
        FaultKind::Version => 2,
        FaultKind::BasicNext => 3,
        FaultKind::Reserved => 4,
        FaultKind::HopZero => 5,
        FaultKind::CommonNext => 6,
        FaultKind::HeaderType => 7,
        FaultKind::SubType => 8,
        FaultKind::HopAboveMax => 9,
        FaultKind::PayloadLength => 10,
        FaultKind::Position => 11,
        FaultKind::Area => 12,
    }
}
