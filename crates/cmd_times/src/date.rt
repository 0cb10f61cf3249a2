//! Days of the Gregorian calendar.

ghost use Rattle.std.specs.Prelude.{◌<◌, ◌^◌};

use std::fmt;

/// Days from the first of March of the year 0 to the first of January of 1970.
const EPOCH: u64 = 719_468;

/// The days of 400 years, of 100 years that aren't the last of these, of 4 years that aren't the
/// last of those, and of a year without a leap day.
const ERA: u64 = 146_097;

const CENTURY: u64 = 36_524;

const OLYMPIAD: u64 = 1_461;

const YEAR: u64 = 365;

/// A day.
#[derive(Clone, Copy)]
pub struct Date {
    year: u64,
    /// From 1.
    month: u64,
    /// From 1.
    day: u64,
}

impl Date {
    /// Returns how many days this date is after the first of January of 1970. `None` if it is
    /// before that day, or if the year has more than nine digits. Month and day are counted from 1.
    pub fn days_of(year: u64, month: u64, day: u64) -> Option<u64> {
        if year == 0 || year > 999_999_999 || month == 0 || month > 12 || day > 31 {
            return None;
        }
        // Counted from March on, January and February are of the year before.
        let (years, months) = if month > 2 {
            (year, month - 3)
        } else {
            (year - 1, month + 9)
        };
        let leaps = years / 4 - years / 100 + years / 400;
        let in_year = (153 * months + 2) / 5 + day;
        (YEAR * years + leaps + in_year).checked_sub(EPOCH + 1)
    }

    /// Returns the date that is this many days after the first of January of 1970, at most 2^40.
    /// Years are counted from March on here, so that a leap day is the last day of its year.
    pub fn of(days: u64) -> Date
        requires { days < 2 ^ 40 }
    {
        let all = days + EPOCH;
        let (era, in_era) = (all / ERA, all % ERA);
        let century = (in_era / CENTURY).min(3);
        let in_century = in_era - century * CENTURY;
        let (olympiad, in_olympiad) = (in_century / OLYMPIAD, in_century % OLYMPIAD);
        let year = (in_olympiad / YEAR).min(3);
        let in_year = in_olympiad - year * YEAR;
        let month = (5 * in_year + 2) / 153;
        let day = in_year - (153 * month + 2) / 5 + 1;
        let years = 400 * era + 100 * century + 4 * olympiad + year;
        if month < 10 {
            Date {
                year: years,
                month: month + 3,
                day,
            }
        } else {
            Date {
                year: years + 1,
                month: month - 9,
                day,
            }
        }
    }
}

/// Returns how many days a month has, which is counted from 1. 0 if there is no such month.
pub fn days_in_month(year: u64, month: u64) -> u64 {
    let is_leap = year % 4 == 0 && (year % 100 != 0 || year % 400 == 0);
    match month {
        1 | 3 | 5 | 7 | 8 | 10 | 12 => 31,
        4 | 6 | 9 | 11 => 30,
        2 if is_leap => 29,
        2 => 28,
        _ => 0,
    }
}

impl fmt::Display for Date {
    fn fmt<W: fmt::Write>(&self, f: &mut fmt::Formatter<W>) -> fmt::Result {
        write!(f, "{:04}-{:02}-{:02}", self.year, self.month, self.day)
    }
}
