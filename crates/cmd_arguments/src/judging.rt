//! What the options of `verdict` choose.

use crate::bad_argument::BadArgument;
use clap::ArgMatches;
use cmd_verdict::{Claim, ClaimSet, DutySet, Printing};

/// The claims that `--assume` names. The fault is that of the first unknown one.
pub fn claims_of<'a>(matches: &ArgMatches<'a>) -> Result<ClaimSet, BadArgument<'a>> {
    let mut claims = ClaimSet::none();
    for name in matches.get_strs("assume").unwrap_or(&[]) {
        match Claim::named(name) {
            Some(claim) => claims = claims.with(claim),
            None => {
                let wanted = "a claim that verdict --help lists";
                return Err(BadArgument::Value("assume", name, wanted));
            }
        }
    }
    Ok(claims)
}

/// The duties that `--duty` lists, or all.
pub fn duties_of<'a>(matches: &ArgMatches<'a>) -> Result<DutySet, BadArgument<'a>> {
    let Some(list) = matches.get_str("duty") else {
        return Ok(DutySet::all());
    };
    let wanted = "a list of D1 to D6, D10, D12 to D17, D19 and D20";
    match DutySet::listed(list) {
        Ok(duties) => Ok(duties),
        Err(_) => Err(BadArgument::Value("duty", list, wanted)),
    }
}

/// Which verdicts are printed, by `--all` and `--inconclusive`.
pub fn printing_of(matches: &ArgMatches<'_>) -> Printing {
    if matches.get_flag("all") {
        return Printing::All;
    }
    if matches.get_flag("inconclusive") {
        return Printing::Inconclusive;
    }
    Printing::Fails
}
