//! Whether the limits of a unit apply to a call.

/// Whether the limits apply to a call.
#[derive(Clone, Copy, Debug, PartialEq, Eq)]
pub enum Limiting {
    /// They apply: what they withhold doesn't pass, and what passes is noted in them.
    Within,
    /// They don't: nothing is withheld for them, or noted in them.
    Past,
}
