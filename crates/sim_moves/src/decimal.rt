//! Numbers as a file of moves writes them: whole ones, and decimals that are rounded to a unit.

ghost use Rattle.std.specs.Prelude.{◌≡◌, ◌≤◌, ◌<◌, ◌↔◌, ◌+◌, ◌*◌, ◌^◌, ◌++◌, ℤ, length};
ghost use Rattle.std.specs.Prelude.{IfSome, IfNone, IsTrue};
ghost use Rattle.std.specs.Str.Parse.{AllDigits, digits_value};
ghost use Rattle.sim_moves.specs.Decimals.{WritesWhole, WritesDecimal, unsigned_part, signed_by};
ghost use Rattle.sim_moves.specs.Decimals.{before_point, behind_point, nearest};

/// The most digits of a whole number.
const MOST_DIGITS: usize = 19;

/// The most digits of a decimal.
const MOST_DECIMAL_DIGITS: usize = 18;

/// Reads a whole number: an optional minus sign, and 1 to 19 digits. `None` for other octets.
pub(crate) fn whole(octets: &[u8]) -> Option<i128>
    ensures some { IfSome result (WritesWhole octets.now) }
    ensures none { IfNone result ((number : ℤ) → ¬ WritesWhole octets.now number) }
{
    let digits = unsigned(octets);
    if digits.is_empty() || digits.len() > MOST_DIGITS {
        return None;
    }
    let magnitude = value_of(digits)?;
    Some(signed(octets, magnitude as u128))
}

#[tactic(auto, using(crate::proofs::Numbers::small_power, crate::proofs::Numbers::some_power))]
/// Reads a decimal number, rounded to units of 10 to the minus `places`, halves away from zero: an
/// optional minus sign, and 1 to 18 digits with at most one point between or after them. `None` for
/// other octets.
pub(crate) fn decimal(places: u32, octets: &[u8]) -> Option<i128>
    requires { places ≤ 7 }
    ensures some { IfSome result (WritesDecimal places octets.now) }
    ensures none { IfNone result ((number : ℤ) → ¬ WritesDecimal places octets.now number) }
{
    let (whole, fraction) = pointed(unsigned(octets));
    if whole.is_empty() || !are_digits(whole) || !are_digits(fraction) {
        return None;
    }
    if whole.len() + fraction.len() > MOST_DECIMAL_DIGITS {
        return None;
    }
    let unit = 10u64.pow(fraction.len() as u32);
    let digits = joined(whole, fraction, unit);
    Some(signed(octets, nearest_to(digits, 10u64.pow(places), unit)))
}

#[tactic(auto, using(crate::proofs::Numbers::value_of_both, crate::proofs::Numbers::both_fit))]
/// Returns the number of the digits on both sides of a point, in units of the last digit. `unit` is
/// how many of these units make 1.
fn joined(whole: &[u8], fraction: &[u8], unit: u64) -> u64
    requires whole { AllDigits 10 whole.now }
    requires fraction { AllDigits 10 fraction.now }
    requires few { length whole.now + length fraction.now ≤ 18 }
    requires unit { unit ≡ 10 ^ length fraction.now }
    ensures { result ≡ digits_value 10 (whole.now ++ fraction.now) }
{
    value(whole) * unit + value(fraction)
}

/// The whole number nearest to `digits * scale / unit`, halves upwards.
fn nearest_to(digits: u64, scale: u64, unit: u64) -> u128
    requires scale { scale ≤ 10 ^ 7 }
    requires unit { 0 < unit }
    ensures value { result ≡ nearest (digits * scale) unit }
    ensures fits { result < 2 ^ 127 }
{
    let (digits, scale, unit) = (digits as u128, scale as u128, unit as u128);
    (2 * (digits * scale) + unit) / (2 * unit)
}

/// Returns the octets after a minus sign, if they begin with one.
fn unsigned(octets: &[u8]) -> &[u8]
    ensures { result.now ≡ unsigned_part octets.now }
{
    match octets.first() {
        Some(b'-') => &octets[1..],
        _ => octets,
    }
}

/// Returns this magnitude with the sign at the beginning of the octets.
fn signed(octets: &[u8], magnitude: u128) -> i128
    requires { magnitude < 2 ^ 127 }
    ensures { result ≡ signed_by octets.now magnitude }
{
    match octets.first() {
        Some(b'-') => -(magnitude as i128),
        _ => magnitude as i128,
    }
}

#[tactic(auto, using(crate::proofs::Numbers::before_at, crate::proofs::Numbers::behind_here, crate::proofs::Numbers::before_none, crate::proofs::Numbers::behind_none))]
/// Returns the octets before the first point, and those after it.
fn pointed(octets: &[u8]) -> (&[u8], &[u8])
    ensures before { result.0.now ≡ before_point octets.now }
    ensures behind { result.1.now ≡ behind_point octets.now }
{
    for (place, octet) in octets.iter().enumerate() {
        if *octet == b'.' {
            return (&octets[..place], &octets[place + 1..]);
        }
    }
    (octets, &[])
}

#[tactic(auto, using(std::proofs::lemmas::Int::Digits::digits_more, std::proofs::lemmas::Str::Parse::digit_at))]
/// Whether all octets are digits.
fn are_digits(octets: &[u8]) -> bool
    ensures { IsTrue result ↔ AllDigits 10 octets.now }
{
    for octet in octets {
        if !octet.is_ascii_digit() {
            return false;
        }
    }
    true
}

#[tactic(auto, using(crate::proofs::Numbers::next_digit, std::proofs::lemmas::Int::Digits::digits_value_more, std::proofs::lemmas::Str::Parse::digit_at))]
/// Returns the number of at most 19 digits.
fn value(digits: &[u8]) -> u64
    requires digits { AllDigits 10 digits.now }
    requires few { length digits.now ≤ 19 }
    ensures { result ≡ digits_value 10 digits.now }
{
    let mut value = 0;
    for digit in digits {
        value = value * 10 + (*digit - b'0') as u64;
    }
    value
}

#[tactic(auto, using(crate::proofs::Numbers::digit_more, std::proofs::lemmas::Int::Digits::digits_more, std::proofs::lemmas::Int::Digits::digits_value_more, std::proofs::lemmas::Str::Parse::digit_at))]
/// Returns the number of at most 19 digits. `None` if an octet is not a digit.
fn value_of(octets: &[u8]) -> Option<u64>
    requires few { length octets.now ≤ 19 }
    ensures digits { IfSome result (λ _. AllDigits 10 octets.now) }
    ensures value { IfSome result (λ value. value ≡ digits_value 10 octets.now) }
    ensures none { IfNone result (¬ AllDigits 10 octets.now) }
{
    let mut value = 0;
    for octet in octets {
        if !octet.is_ascii_digit() {
            return None;
        }
        value = value * 10 + (*octet - b'0') as u64;
    }
    Some(value)
}
