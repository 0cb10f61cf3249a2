//! The octets of a secured frame, and where its plain part is.

ghost use Rattle.std.specs.Prelude.{◌≤◌, ◌+◌, length};
ghost use Rattle.std.specs.Result.{ForOk};

use cap_records::{PlainPart, RecordFault};

/// The octets of a secured frame, and where its plain part is, or why it isn't read.
#[derive(Drop)]
pub(crate) struct SecuredOctets {
    pub(crate) frame: Vec<u8>,
    pub(crate) plain: Result<PlainPart, RecordFault>,
    ghost inside: { ForOk plain (λ part. part.start + part.length ≤ length frame.items) },
}
