//! The sequence numbers of a source, counted on without wrapping.

use std::alloc::{AllocError, Global};
use std::collections::BTreeMap;

/// How many sequence numbers there are. 0 follows the last one.
const NUMBERS: i64 = 65_536;

/// How far below the greatest place a number may be put.
const BELOW: i64 = 32_768;

/// How many places a word has.
const PLACES: i64 = 64;

/// The places of the numbers of a source. The first number is its own place. Each further number
/// has the one place that is equal to it modulo 65536 and from 32768 below the greatest place so
/// far to 32767 above it.
#[derive(Drop)]
pub(crate) struct Numbers {
    /// The least and the greatest place, if there is a number.
    ends: Option<(i64, i64)>,
    /// How many places are taken.
    taken: u64,
    /// How many numbers had a place that was already taken.
    repeated: u64,
    /// The places that are taken and that a number may still have, 64 per word, by the word's
    /// number.
    words: BTreeMap<i64, u64>,
}

impl Numbers {
    /// Returns the places before the first number.
    pub(crate) fn new(alloc: Global) -> Numbers {
        Numbers {
            ends: None,
            taken: 0,
            repeated: 0,
            words: BTreeMap::new(alloc),
        }
    }

    /// Adds the next number.
    pub(crate) fn add(&mut self, number: u16) -> Result<(), AllocError> {
        let Some((least, greatest)) = self.ends else {
            let place = i64::from(number);
            self.ends = Some((place, place));
            return self.take(place);
        };
        let place = place_of(number, greatest);
        self.ends = Some((least.min(place), greatest.max(place)));
        self.take(place)?;
        self.forget(greatest.max(place));
        Ok(())
    }

    /// Marks a place as taken.
    fn take(&mut self, place: i64) -> Result<(), AllocError> {
        let bit = 1u64 << place.rem_euclid(PLACES) as u32;
        let word = self.words.entry(place.div_euclid(PLACES))?.or_insert(0);
        if *word & bit == 0 {
            *word |= bit;
            self.taken = self.taken.saturating_add(1);
        } else {
            self.repeated = self.repeated.saturating_add(1);
        }
        Ok(())
    }

    /// Forgets the words whose places no further number can have, if this is the greatest place.
    fn forget(&mut self, greatest: i64) {
        let least = greatest.saturating_sub(BELOW).div_euclid(PLACES);
        // A number moves the greatest place by fewer words than this.
        for step in 0..BELOW {
            match self.words.first_key_value() {
                Some((word, _)) if *word < least => {}
                _ => return,
            }
            let _ = self.words.pop_first();
        }
    }

    /// Returns how many places between the least and the greatest aren't taken.
    pub(crate) fn missing(&self) -> u64 {
        match self.ends {
            Some((least, greatest)) => {
                greatest
                    .abs_diff(least)
                    .saturating_sub(self.taken.saturating_sub(1))
            }
            None => 0,
        }
    }

    /// Returns how many numbers had a place that was already taken.
    pub(crate) fn repeated(&self) -> u64 {
        self.repeated
    }
}

/// Returns the place of a number, if this is the greatest place so far.
fn place_of(number: u16, greatest: i64) -> i64 {
    let ahead = i64::from(number)
        .saturating_sub(greatest)
        .rem_euclid(NUMBERS);
    if ahead < BELOW {
        greatest.saturating_add(ahead)
    } else {
        greatest.saturating_add(ahead - NUMBERS)
    }
}
