//! The word of a call.

ghost use Rattle.std.specs.Prelude.{◌≡◌};
ghost use Rattle.its_station.specs.Runs.{own_of};
ghost use Rattle.its_words.specs.Verbs.{own_verb};

use crate::keys::Verb;
use its_station::OwnCall;

/// Returns the word of a call of the applications.
pub fn own_verb(call: &OwnCall) -> Verb
    ensures { result ≡ own_verb (own_of call.now) }
{
    match call {
        OwnCall::MoveTo { .. } => Verb::Move,
        OwnCall::Open(_) => Verb::Open,
        OwnCall::Close(_) => Verb::Close,
        OwnCall::Tick(_) => Verb::Tick,
        OwnCall::SendShb(_) => Verb::Shb,
        OwnCall::SendGeobroadcast(_) => Verb::Gbc,
        OwnCall::SendGeoanycast(_) => Verb::Gac,
        OwnCall::Restart(_) => Verb::Restart,
    }
}
