//! What a scenario expects of its run.
ghost use Rattle.std.specs.Prelude.{IfOk};
ghost use Rattle.its_words.specs.Fields.{IsNumberIf};
ghost use Rattle.its_words.specs.declared.keys.key.Key.TheVariants as keys;
ghost use Rattle.sim_settings.specs.Saying.{SaysExpectation, SaysReached};

use its_words::keys::{Fields, Key, KeyFault, number, whole};

/// At how many stations a packet has to be delivered.
#[derive(Clone, Copy, Debug, PartialEq, Eq)]
pub enum Reached {
    /// At this many of the stations that are inside its area when it is sent, with its port open.
    AtLeast(u16),
    /// At all of these stations.
    All,
}

/// What is expected of one packet for an area.
#[derive(Clone, Copy, Debug, PartialEq, Eq)]
pub struct Expectation {
    /// The number of the packet among those that are sent, from 0: 0 to 4294967295.
    pub send: usize,
    /// At how many stations it has to be delivered.
    pub reached: Reached,
    /// The most milliseconds from the send: 0 to 2^62. `None` if any time will do.
    pub within: Option<u64>,
}

/// Reads an expectation: `send`, `reached`, `within`, checked in this order. The last may be
/// missing.
pub fn read_expectation<F: Fields>(fields: &F) -> Result<Expectation, KeyFault>
    ensures { IfOk result (SaysExpectation (F.values fields.now)) }
{
    Ok(Expectation {
        send: whole(fields, Key::Send)? as usize,
        reached: read_reached(fields)?,
        within: read_within(fields)?,
    })
}

/// Reads at how many stations a packet has to be delivered: a number, or `all`.
fn read_reached<F: Fields>(fields: &F) -> Result<Reached, KeyFault>
    ensures { IfOk result (SaysReached (F.values fields.now)) }
{
    match fields.text(Key::Reached.word()) {
        Some("all") => Ok(Reached::All),
        _ => Ok(Reached::AtLeast(number(fields, Key::Reached)?)),
    }
}

/// Reads within how many milliseconds, if that is given.
fn read_within<F: Fields>(fields: &F) -> Result<Option<u64>, KeyFault>
    ensures { IfOk result (IsNumberIf (F.values fields.now) keys.Within) }
{
    if !fields.has(Key::Within.word()) {
        return Ok(None);
    }
    Ok(Some(whole(fields, Key::Within)? as u64))
}
