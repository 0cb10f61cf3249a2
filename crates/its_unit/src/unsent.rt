//! Why an own packet isn't sent.

use its_station::Refused;

/// Why a request for an own packet gives no frame.
#[derive(Clone, Copy, Debug, PartialEq, Eq)]
pub enum Unsent {
    /// The station refused the call, and stands as before.
    Refused(Refused),
    /// Own packets are over their rate. The station wasn't asked, and nothing changed but the count.
    OverRate,
}
