//! Reads the table `air`: a radio model.

ghost use Rattle.std.specs.Prelude.{◌≤◌, ◌<◌, ◌^◌, IfOk, IfSome, false};
ghost use Rattle.its_words.specs.Fields.{IsNumberIf, IsNumberOr, IsTruthOr};
ghost use Rattle.its_words.specs.declared.keys.key.Key.TheVariants as keys;
ghost use Rattle.sim_settings.specs.Saying.{SaysAir, SaysRule};

use crate::air::Air;
use its_contention::ContentionRule;
use its_words::keys::{Fields, Key, KeyFault, Wrong, number, truth, whole, whole_or};

/// The default rule of contention: `ContentionRule::DEFAULT`.
const USUAL_MAX_WAIT: i64 = 100;

const USUAL_MIN_WAIT: i64 = 1;

const USUAL_RANGE: i64 = 1000;

const USUAL_COPIES: i64 = 2;

/// Reads an air: `range`, `delay`, `loss`, `seed`, `beacons`, `until`, `contention`,
/// `contention_max`, `contention_min`, `contention_range`, `contention_copies`, checked in this
/// order. All but `range` may be missing. `contention_min` is at most `contention_max`.
pub fn read_air<F: Fields>(fields: &F) -> Result<Air, KeyFault>
    ensures { IfOk result (SaysAir (F.values fields.now)) }
{
    let range = number(fields, Key::Range)?;
    let delay = whole_or(fields, Key::Delay, 1)? as u16;
    let loss = read_loss(fields)?;
    let seed = read_seed(fields)?;
    let beacons = read_beacons(fields)?;
    let until = read_until(fields)?;
    let contends = read_contends(fields, false)?;
    let rule = read_rule(fields)?;
    Ok(Air {
        range,
        delay,
        loss,
        seed,
        beacons,
        until,
        contends,
        rule,
    })
}

/// Reads the percentage of deliveries that are lost (default 0).
fn read_loss<F: Fields>(fields: &F) -> Result<u8, KeyFault>
    ensures says { IfOk result (IsNumberOr (F.values fields.now) keys.Loss 0) }
    ensures most { IfOk result (λ percent. percent ≤ 100) }
{
    Ok(whole_or(fields, Key::Loss, 0)? as u8)
}

/// Reads the seed of the random numbers (default 0).
fn read_seed<F: Fields>(fields: &F) -> Result<u64, KeyFault>
    ensures says { IfOk result (IsNumberOr (F.values fields.now) keys.Seed 0) }
    ensures fits { IfOk result (λ seed. seed < 2 ^ 63) }
{
    Ok(whole_or(fields, Key::Seed, 0)? as u64)
}

/// Reads whether stations send beacons by themselves (default `false`).
fn read_beacons<F: Fields>(fields: &F) -> Result<bool, KeyFault>
    ensures { IfOk result (IsTruthOr (F.values fields.now) keys.Beacons false) }
{
    if fields.has(Key::Beacons.word()) {
        truth(fields, Key::Beacons)
    } else {
        Ok(false)
    }
}

/// Reads the last time that is run, if it is given.
fn read_until<F: Fields>(fields: &F) -> Result<Option<u64>, KeyFault>
    ensures says { IfOk result (IsNumberIf (F.values fields.now) keys.Until) }
    ensures most { IfOk result (λ until. IfSome until (λ moment. moment ≤ 2 ^ 62)) }
{
    if !fields.has(Key::Until.word()) {
        return Ok(None);
    }
    Ok(Some(whole(fields, Key::Until)? as u64))
}

/// Reads whether stations contend (default `other`).
pub fn read_contends<F: Fields>(fields: &F, other: bool) -> Result<bool, KeyFault>
    ensures { IfOk result (IsTruthOr (F.values fields.now) keys.Contention other) }
{
    if fields.has(Key::Contention.word()) {
        truth(fields, Key::Contention)
    } else {
        Ok(other)
    }
}

/// Reads the rule of the stations that contend (default: waits of 1 to 100 ms, a range of 1000 m
/// and two copies).
fn read_rule<F: Fields>(fields: &F) -> Result<ContentionRule, KeyFault>
    ensures { IfOk result (SaysRule (F.values fields.now)) }
{
    let max_wait = read_max_wait(fields)?;
    let min_wait = read_min_wait(fields)?;
    if min_wait > max_wait {
        let wrong = Wrong::Over(i64::from(min_wait), max_wait);
        return Err(KeyFault::Refused(Key::ContentionMin, wrong));
    }
    let range = read_contention_range(fields)?;
    let copies = read_copies(fields)?;
    match ContentionRule::new(min_wait, max_wait, range, copies) {
        Some(rule) => Ok(rule),
        // Each value is in the range of its key.
        None => Err(KeyFault::Refused(Key::ContentionCopies, Wrong::Value)),
    }
}

/// Reads the greatest wait.
fn read_max_wait<F: Fields>(fields: &F) -> Result<u16, KeyFault>
    ensures { IfOk result (IsNumberOr (F.values fields.now) keys.ContentionMax 100) }
{
    Ok(whole_or(fields, Key::ContentionMax, USUAL_MAX_WAIT)? as u16)
}

/// Reads the least wait.
fn read_min_wait<F: Fields>(fields: &F) -> Result<u16, KeyFault>
    ensures { IfOk result (IsNumberOr (F.values fields.now) keys.ContentionMin 1) }
{
    Ok(whole_or(fields, Key::ContentionMin, USUAL_MIN_WAIT)? as u16)
}

/// Reads the distance of the sender from which on the wait is the least.
fn read_contention_range<F: Fields>(fields: &F) -> Result<u16, KeyFault>
    ensures { IfOk result (IsNumberOr (F.values fields.now) keys.ContentionRange 1000) }
{
    Ok(whole_or(fields, Key::ContentionRange, USUAL_RANGE)? as u16)
}

/// Reads how many other stations cancel a frame.
fn read_copies<F: Fields>(fields: &F) -> Result<u8, KeyFault>
    ensures { IfOk result (IsNumberOr (F.values fields.now) keys.ContentionCopies 2) }
{
    Ok(whole_or(fields, Key::ContentionCopies, USUAL_COPIES)? as u8)
}
