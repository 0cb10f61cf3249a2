//! The keyword of what happens at a station.

ghost use Rattle.std.specs.Prelude.{◌≡◌};
ghost use Rattle.its_words.specs.Verbs.{verb_of};
ghost use Rattle.its_world.specs.Events.{what_of};

use its_words::calls::own_verb;
use its_words::keys::Verb;
use its_world::What;

/// Returns the keyword of this call or delivery.
pub fn verb_of(what: &What) -> Verb
    ensures { result ≡ verb_of (what_of what.now) }
{
    match what {
        What::Call(call) => own_verb(call),
        What::Deliver(_) => Verb::Deliver,
    }
}
