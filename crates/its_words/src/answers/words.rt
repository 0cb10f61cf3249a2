//! The words of what a station answers: the one table of them.

use its_station::Why;

/// The station moved.
pub const MOVED: &str = "moved";

/// It opened a port.
pub const OPENED: &str = "opened";

/// It closed a port.
pub const CLOSED: &str = "closed";

/// It restarted.
pub const RESTARTED: &str = "restarted";

/// No beacon was due.
pub const QUIET: &str = "quiet";

/// It sent a frame.
pub const SENT: &str = "sent";

/// It ignored a frame.
pub const IGNORED: &str = "ignored";

/// It accepted the packet of a frame.
pub const ACCEPTED: &str = "accepted";

/// It refused a call.
pub const REFUSED: &str = "refused";

/// Returns the word for why a frame is ignored, for example `not-for-me`.
pub fn why_word(why: Why) -> &'static str {
    match why {
        Why::NotForMe => "not-for-me",
        Why::OwnSource => "own-source",
        Why::SenderMismatch => "sender-mismatch",
        Why::Duplicate => "duplicate",
    }
}
