//! The duties that the command judges, by their numbers and names.

use its_duties::Duty;

/// The duties that are judged, in the order of their numbers.
pub(crate) const JUDGED: [Duty; 15] = [
    Duty::Form,
    Duty::LinkTarget,
    Duty::Mobile,
    Duty::Hops,
    Duty::Lifetime,
    Duty::Numbers,
    Duty::BeaconNotEarly,
    Duty::AreaTarget,
    Duty::Faithful,
    Duty::Kind,
    Duty::Once,
    Duty::InTime,
    Duty::StopsInside,
    Duty::NextHop,
    Duty::Forward,
];

/// Returns the rule of a duty, as the table of counts shows it.
pub(crate) fn rule_of(duty: Duty) -> &'static str {
    match duty {
        Duty::Form => "form",
        Duty::LinkTarget => "addresses",
        Duty::Mobile => "who it is",
        Duty::Hops => "hops",
        Duty::Lifetime => "lifetime",
        Duty::Numbers => "numbers",
        Duty::BeaconNotEarly => "beacon not early",
        Duty::AreaTarget => "link target of an own GBC, GAC",
        Duty::Faithful => "faithful",
        Duty::Kind => "kind",
        Duty::Once => "once",
        Duty::InTime => "in time",
        Duty::StopsInside => "GAC stops inside",
        Duty::NextHop => "next hop",
        Duty::Forward => "forward",
    }
}

/// A list names a duty that is not one of this program.
#[derive(Clone, Copy, Debug, PartialEq, Eq)]
pub struct UnknownDuty;

/// The duties that are selected.
#[derive(Clone, Copy, Debug, PartialEq, Eq)]
pub struct DutySet {
    chosen: [bool; 15],
}

impl DutySet {
    /// Returns all duties that are judged.
    pub fn all() -> DutySet {
        DutySet { chosen: [true; 15] }
    }

    /// Reads the duties of a list, for example `D13,D15`.
    pub fn listed(list: &str) -> Result<DutySet, UnknownDuty> {
        let mut chosen = [false; 15];
        for name in list.split(',') {
            let number = number_in(name).ok_or(UnknownDuty)?;
            let place = JUDGED.iter().position(|duty| duty.number() == number);
            match place.and_then(|place| chosen.get_mut(place)) {
                Some(is_chosen) => *is_chosen = true,
                None => return Err(UnknownDuty),
            }
        }
        Ok(DutySet { chosen })
    }

    /// Whether a duty is selected.
    pub(crate) fn has(&self, duty: Duty) -> bool {
        match place_of(duty) {
            Some(place) => self.chosen.get(place).copied().unwrap_or(false),
            None => false,
        }
    }
}

/// Returns the index of a duty among those that are judged.
pub(crate) fn place_of(duty: Duty) -> Option<usize> {
    JUDGED.iter().position(|judged| *judged == duty)
}

/// Reads the number in a duty's name, for example 13 in `D13`.
fn number_in(name: &str) -> Option<u8> {
    let digits = name.strip_prefix("D")?;
    if digits.starts_with("0") || digits.starts_with("+") {
        return None;
    }
    digits.parse().ok()
}
