//! Values that replace those of a scenario's radio model.

ghost use Rattle.std.specs.Prelude.{◌≡◌, Some, None, IfNone, IfOk, IfSome, map};
ghost use Rattle.its_words.specs.Keys.{word_of};
ghost use Rattle.its_words.specs.Nearest.{IsFar};
ghost use Rattle.sim_settings.specs.Settings.{IsTip, air_keys, set_number, set_truth};

use crate::toml_fields::value_of;
use cmd_quoting::{OneLine, Quoted};
use its_words::keys::{Fields, Key, KeyFault, WrongValue, nearest, truth, whole};
use std::alloc::{AllocError, Global};
use std::fmt;
use thiserror::Error;
use toml::Table;

/// The keys of the radio model, in the order in which they are checked.
pub const AIR_KEYS: [Key; 11] = [
    Key::Range,
    Key::Delay,
    Key::Loss,
    Key::Seed,
    Key::Beacons,
    Key::Until,
    Key::Contention,
    Key::ContentionMax,
    Key::ContentionMin,
    Key::ContentionRange,
    Key::ContentionCopies,
];

/// Values of keys of the radio model. Each replaces the scenario's own. `default` has none.
#[derive(Clone, Copy, Debug, Default, PartialEq, Eq)]
pub struct AirSettings {
    range: Option<i64>,
    delay: Option<i64>,
    loss: Option<i64>,
    seed: Option<i64>,
    beacons: Option<bool>,
    until: Option<i64>,
    contention: Option<bool>,
    contention_max: Option<i64>,
    contention_min: Option<i64>,
    contention_range: Option<i64>,
    contention_copies: Option<i64>,
}

/// A key that is not one of the radio model, or that has an invalid value. It prints as what
/// follows `geostation: ` on standard error.
#[derive(Clone, Copy, Debug, PartialEq, Eq, Error)]
#[error("--set: {}", OneLine(*.word))]
pub struct SettingFault<'a> {
    /// The key, as it was given.
    pub word: &'a str,
    /// What is wrong with its value, if the key is one of the radio model.
    pub wrong: Option<WrongValue<Quoted<'a>>>,
}

/// What is wrong with a setting. It prints as a sentence.
#[derive(Clone, Copy, Debug, PartialEq, Eq)]
pub enum SettingReason<'a> {
    /// Its key is not one of the radio model. This key may be meant.
    Meant(Key),
    /// Its value is invalid.
    Value(WrongValue<Quoted<'a>>),
}

impl fmt::Display for SettingReason<'_> {
    fn fmt<W: fmt::Write>(&self, f: &mut fmt::Formatter<W>) -> fmt::Result {
        match self {
            SettingReason::Meant(key) => write!(f, "did you mean '{key}'?"),
            SettingReason::Value(wrong) => write!(f, "{wrong}"),
        }
    }
}

impl<'a> SettingFault<'a> {
    /// Returns what is wrong with its value or, if its key is not one of the radio model, the key
    /// that may be meant. That is the first key that differs in the fewest letters. `None` if each
    /// differs in more than two.
    pub fn reason(&self, alloc: Global) -> Result<Option<SettingReason<'a>>, AllocError>
        ensures value { IfSome self.now.wrong (λ wrong. IfOk result (λ reason.
            reason ≡ Some (SettingReason.Value wrong))) }
        ensures key { self.now.wrong ≡ None → IfOk result (λ reason.
            IfSome reason (IsTip self.now.word.now)) }
        ensures none { self.now.wrong ≡ None → IfOk result (λ reason.
            IfNone reason (IsFar self.now.word.now (map word_of air_keys))) }
    {
        match self.wrong {
            Some(wrong) => Ok(Some(SettingReason::Value(wrong))),
            None => match nearest(alloc, self.word, &AIR_KEYS)? {
                Some(key) => Ok(Some(SettingReason::Meant(key))),
                None => Ok(None),
            },
        }
    }
}

impl AirSettings {
    /// Takes the value of `KEY=VALUE`, which replaces an earlier one: decimal digits or, for
    /// `beacons` and `contention`, `true` or `false`. The key ends at the first `=`, or at the end
    /// if there is no `=`.
    ///
    /// Refuses a key that is not one of the radio model, that has no value, or that has a value out
    /// of its range.
    pub fn set<'a>(&mut self, text: &'a str) -> Result<(), SettingFault<'a>> {
        let setting = Setting::of(text);
        let word = setting.word;
        let Some(set) = self.set_key(&setting) else {
            return Err(SettingFault { word, wrong: None });
        };
        set.map_err(|fault| SettingFault {
            word,
            wrong: setting.wrong(fault),
        })
    }

    /// Keeps the value of the key of a setting. `None` if the key is not one of the radio model.
    fn set_key(&mut self, setting: &Setting<'_>) -> Option<Result<(), KeyFault>> {
        Some(match setting.word {
            "range" => set_whole(&mut self.range, setting, Key::Range),
            "delay" => set_whole(&mut self.delay, setting, Key::Delay),
            "loss" => set_whole(&mut self.loss, setting, Key::Loss),
            "seed" => set_whole(&mut self.seed, setting, Key::Seed),
            "beacons" => set_truth(&mut self.beacons, setting, Key::Beacons),
            "until" => set_whole(&mut self.until, setting, Key::Until),
            "contention" => set_truth(&mut self.contention, setting, Key::Contention),
            _ => return self.set_of_rule(setting),
        })
    }

    /// Keeps the value of a key of the rule of stations that contend. `None` if the key is not one.
    fn set_of_rule(&mut self, setting: &Setting<'_>) -> Option<Result<(), KeyFault>> {
        Some(match setting.word {
            "contention_max" => set_whole(&mut self.contention_max, setting, Key::ContentionMax),
            "contention_min" => set_whole(&mut self.contention_min, setting, Key::ContentionMin),
            "contention_range" => {
                set_whole(&mut self.contention_range, setting, Key::ContentionRange)
            }
            "contention_copies" => {
                set_whole(&mut self.contention_copies, setting, Key::ContentionCopies)
            }
            _ => return None,
        })
    }

    /// Whether no key has a value.
    pub fn is_empty(&self) -> bool {
        *self == AirSettings::default()
    }

    /// Returns the whole number of a key, if it has one.
    fn number(&self, word: &str) -> Option<i64>
        ensures { result ≡ set_number self.now word.now }
    {
        match word {
            "range" => self.range,
            "delay" => self.delay,
            "loss" => self.loss,
            "seed" => self.seed,
            "until" => self.until,
            "contention_max" => self.contention_max,
            "contention_min" => self.contention_min,
            "contention_range" => self.contention_range,
            "contention_copies" => self.contention_copies,
            _ => None,
        }
    }

    /// Returns the truth value of a key, if it has one.
    fn truth(&self, word: &str) -> Option<bool>
        ensures { result ≡ set_truth self.now word.now }
    {
        match word {
            "beacons" => self.beacons,
            "contention" => self.contention,
            _ => None,
        }
    }
}

/// Keeps the whole number of a key, in its range.
fn set_whole(kept: &mut Option<i64>, setting: &Setting<'_>, key: Key) -> Result<(), KeyFault> {
    *kept = Some(whole(setting, key)?);
    Ok(())
}

/// Keeps the truth value of a key.
fn set_truth(kept: &mut Option<bool>, setting: &Setting<'_>, key: Key) -> Result<(), KeyFault> {
    *kept = Some(truth(setting, key)?);
    Ok(())
}

/// A key and its value, as they were given.
#[derive(Clone, Copy)]
struct Setting<'a> {
    word: &'a str,
    value: Option<&'a str>,
    /// The whole number of the value, if that is decimal digits.
    number: Option<i64>,
    /// The truth value, if the value is one.
    truth: Option<bool>,
}

impl<'a> Setting<'a> {
    /// Splits `KEY=VALUE`.
    fn of(text: &'a str) -> Setting<'a> {
        let (word, value) = match text.split_once('=') {
            Some((word, value)) => (word, Some(value)),
            None => (text, None),
        };
        Setting {
            word,
            value,
            number: value.and_then(number_in),
            truth: value.and_then(truth_in),
        }
    }

    /// Returns what is wrong with its value, by the fault of its key. `None` if an allocation
    /// failed.
    fn wrong(&self, fault: KeyFault) -> Option<WrongValue<Quoted<'a>>> {
        let value = self.value.map(Quoted);
        fault.wrong().map(|wrong| WrongValue { wrong, value })
    }
}

/// Reads decimal digits as a whole number.
fn number_in(digits: &str) -> Option<i64> {
    if digits.bytes().all(|octet| octet.is_ascii_digit()) {
        digits.parse().ok()
    } else {
        None
    }
}

/// Reads `true` or `false`.
fn truth_in(word: &str) -> Option<bool> {
    match word {
        "true" => Some(true),
        "false" => Some(false),
        _ => None,
    }
}

impl Fields for Setting<'_> {
    ghost use Rattle.std.specs.Prelude.{◌&&◌, is_some, nat_eq};
    ghost use Rattle.std.specs.Cmp.Lexicographic.{pointwise};
    ghost use Rattle.std.specs.Option.{option_copied};

    ghost values = { λ setting. record {
      has = λ word. pointwise nat_eq word setting.word.now && is_some setting.value;
      integer = λ _. setting.number;
      truth = λ _. setting.truth;
      text = λ _. option_copied setting.value;
    } };

    fn has(&self, word: &str) -> bool {
        word == self.word && self.value.is_some()
    }

    fn integer(&self, _word: &str) -> Option<i64> {
        self.number
    }

    fn truth(&self, _word: &str) -> Option<bool> {
        self.truth
    }

    fn text(&self, _word: &str) -> Option<&str> {
        self.value
    }
}

/// The table of a radio model, with values that replace its own.
#[derive(Clone, Copy)]
pub struct SetAir<'a> {
    /// The table of the radio model.
    pub table: &'a Table,
    /// The values.
    pub settings: &'a AirSettings,
}

impl Fields for SetAir<'_> {
    ghost use Rattle.toml.specs.View.{table_view};
    ghost use Rattle.sim_settings.specs.Settings.{set_values};
    ghost use Rattle.sim_settings.specs.Tables.{table_values};

    ghost values = { λ air. set_values air.settings.now (table_values (table_view air.table.now)) };

    fn has(&self, word: &str) -> bool {
        let is_set = self.settings.number(word).is_some() || self.settings.truth(word).is_some();
        is_set || value_of(self.table, word).is_some()
    }

    fn integer(&self, word: &str) -> Option<i64> {
        match self.settings.number(word) {
            Some(number) => Some(number),
            None => value_of(self.table, word)?.as_integer(),
        }
    }

    fn truth(&self, word: &str) -> Option<bool> {
        match self.settings.truth(word) {
            Some(truth) => Some(truth),
            None => value_of(self.table, word)?.as_bool(),
        }
    }

    fn text(&self, word: &str) -> Option<&str> {
        value_of(self.table, word)?.as_str()
    }
}
