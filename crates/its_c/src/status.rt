//! The statuses that calls from C return.

ghost use Rattle.std.specs.Prelude.{◌≡◌, ◌≢◌, pos};
ghost use Rattle.its_c.specs.Status.{status_of, status_of_unsent};

use its_btp::PortFault;
use its_station::Refused;
use its_unit::Unsent;

/// The call was done.
pub(crate) const OK: i32 = 0;

/// The octets are no frame (S3).
pub(crate) const BAD_FRAME: i32 = 3;

/// An allocation failed (S5).
pub(crate) const NO_MEMORY: i32 = 5;

/// An argument is out of its range.
pub(crate) const BAD_ARGUMENT: i32 = 20;

/// The buffer has no room for the longest frame.
pub(crate) const NO_ROOM: i32 = 21;

/// An own packet is over its rate.
pub(crate) const OVER_RATE: i32 = 22;

/// The status of a refusal: that of S1 is 1, and so on to S9; S8 is 8, 10 or 11.
pub(crate) fn status_of(refused: Refused) -> i32
    ensures status { result ≡ status_of refused }
    ensures memory { result ≡ pos 5 → refused ≡ Refused.NoMemory }
    ensures rate { result ≢ pos 22 }
    ensures refused { result ≢ pos 0 }
{
    match refused {
        Refused::MomentEarlier => 1,
        Refused::MomentTooLate => 2,
        Refused::Frame(_) | Refused::Secured(_) => 3,
        Refused::TableFull => 4,
        Refused::NoMemory => 5,
        Refused::PayloadTooLong => 6,
        Refused::HopLimitZero => 7,
        Refused::Port(PortFault::AlreadyOpen) => 8,
        Refused::JitterRange => 9,
        Refused::Port(PortFault::Full) => 10,
        Refused::Port(PortFault::NotOpen) => 11,
    }
}

/// The status of a request for an own packet that gives no frame.
pub(crate) fn status_of_unsent(unsent: Unsent) -> i32
    ensures status { result ≡ status_of_unsent unsent }
    ensures memory { result ≡ pos 5 → unsent ≡ Unsent.Refused Refused.NoMemory }
    ensures rate { result ≡ pos 22 → unsent ≡ Unsent.OverRate }
    ensures refused { result ≢ pos 0 }
{
    match unsent {
        Unsent::Refused(refused) => status_of(refused),
        Unsent::OverRate => OVER_RATE,
    }
}
