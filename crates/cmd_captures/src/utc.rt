//! Reads date and time in UTC, as `--time utc` prints it.

ghost use Rattle.std.specs.Prelude.{◌≤◌, length};

use cmd_times::{Date, days_in_month};

/// Returns the milliseconds since 1970 of a date and time in UTC (RFC 3339), for example
/// `2023-11-14T22:13:20.123Z`. The year has 4 to 9 digits. The fraction may be missing and is cut
/// to milliseconds. `None` if the text is not such a time, or if it is before 1970.
pub fn utc_moment(text: &str) -> Option<u64> {
    let (days, rest) = read_date(text.as_bytes())?;
    let rest = after(rest, b'T')?;
    let (seconds, rest) = read_time(rest)?;
    let (millis, rest) = read_fraction(rest)?;
    if !after(rest, b'Z')?.is_empty() {
        return None;
    }
    let seconds = days.checked_mul(86_400)?.checked_add(seconds)?;
    seconds.checked_mul(1000)?.checked_add(millis)
}

/// Reads the date at the front of a text. Returns its days since 1970, and what follows it.
fn read_date(text: &[u8]) -> Option<(u64, &[u8])> {
    let (year, rest) = read_number(text, 4, 9)?;
    let (month, rest) = read_number(after(rest, b'-')?, 2, 2)?;
    let (day, rest) = read_number(after(rest, b'-')?, 2, 2)?;
    if day == 0 || day > days_in_month(year, month) {
        return None;
    }
    Some((Date::days_of(year, month, day)?, rest))
}

/// Reads the time of day at the front of a text. Returns its seconds, and what follows it.
fn read_time(text: &[u8]) -> Option<(u64, &[u8])> {
    let (hour, rest) = read_number(text, 2, 2)?;
    let (minute, rest) = read_number(after(rest, b':')?, 2, 2)?;
    let (second, rest) = read_number(after(rest, b':')?, 2, 2)?;
    if hour > 23 || minute > 59 || second > 59 {
        return None;
    }
    Some((3600 * hour + 60 * minute + second, rest))
}

/// Reads the fraction of a second at the front of a text. Returns its milliseconds, and what
/// follows it. Without a fraction the milliseconds are 0.
fn read_fraction(text: &[u8]) -> Option<(u64, &[u8])> {
    let Some(digits) = after(text, b'.') else {
        return Some((0, text));
    };
    let count = leading_digits(digits);
    let value = value_of(&digits[..count.min(3)])?;
    let millis = match count {
        0 => return None,
        1 => value.checked_mul(100)?,
        2 => value.checked_mul(10)?,
        _ => value,
    };
    Some((millis, &digits[count..]))
}

/// Reads the number at the front of a text, which has from `least` to `most` digits. Returns it
/// with what follows it.
fn read_number(text: &[u8], least: usize, most: usize) -> Option<(u64, &[u8])> {
    let count = leading_digits(text);
    if count < least || count > most {
        return None;
    }
    Some((value_of(&text[..count])?, &text[count..]))
}

/// Returns what follows this character at the front of a text. `None` if the text doesn't begin
/// with it.
fn after(text: &[u8], mark: u8) -> Option<&[u8]> {
    if text.is_empty() || text[0] != mark {
        return None;
    }
    Some(&text[1..])
}

/// Returns how many digits a text begins with.
fn leading_digits(text: &[u8]) -> usize
    ensures { result ≤ length text.now }
{
    let end = text.iter().position(|octet| !octet.is_ascii_digit());
    end.unwrap_or(text.len())
}

/// Returns the number of these digits. `None` if it needs more than 64 bits.
fn value_of(digits: &[u8]) -> Option<u64> {
    let mut value: u64 = 0;
    for digit in digits {
        let digit = u64::from(digit.checked_sub(b'0')?);
        value = value.checked_mul(10)?.checked_add(digit)?;
    }
    Some(value)
}
