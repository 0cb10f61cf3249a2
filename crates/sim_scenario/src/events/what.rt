//! Reads what happens at a station: a keyword and its keys.

ghost use Rattle.std.specs.Prelude.{IfOk, IfErr};
ghost use Rattle.its_words.specs.Faults.{IsWhatFault};
ghost use Rattle.its_words.specs.Reading.{IsBadOf, SaysWhat};
ghost use Rattle.its_world.specs.Events.{what_of};
ghost use Rattle.sim_scenario.specs.Events.{FitsWhat};

use its_words::calls::read_keys;
use its_words::keys::{Fields, Key, KeyFault, Verb, Wrong, text, whole};
use its_world::What;
use std::alloc::Global;

/// Reads what a station does: the keyword under `do`, and then its keys, checked in this order.
///
/// Returns the first key that is missing, of another kind or out of range.
///
/// - `says` (`SaysWhat`): for fields of any notation, the result is what the keyword under `do` and
///   its keys say.
/// - `bad` (`IsBadOf`): the key that is refused has no valid value.
#[tactic(auto, using(its_words::proofs::Bad::bad_of, its_words::proofs::Bad::bad_word))]
pub fn read_what<F: Fields>(alloc: Global, fields: &F) -> Result<What, KeyFault>
    ensures says { IfOk result (λ what. SaysWhat (F.values fields.now) (what_of what)) }
    ensures fits { IfOk result FitsWhat }
    ensures fault { IfErr result IsWhatFault }
    ensures bad { IfErr result (IsBadOf (F.values fields.now)) }
{
    match Verb::named(text(fields, Key::Do)?) {
        Some(Verb::Deliver) => Ok(What::Deliver(whole(fields, Key::Frame)? as usize)),
        Some(verb) => Ok(What::Call(read_keys(alloc, fields, verb)?)),
        None => Err(KeyFault::Refused(Key::Do, Wrong::Value)),
    }
}
