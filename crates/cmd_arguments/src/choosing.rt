//! Reads the options of a command that select records of a capture, name ports, and say how times
//! are printed.

ghost use Rattle.std.specs.Prelude.{◌≡◌, ℕ, List, Ok, MatchResult, IfOk, IfErr, IfSome, None};
ghost use Rattle.std.specs.Prelude.{codes, map};
ghost use Rattle.hex.specs.Hex.{decode_sized};
ghost use Rattle.std.specs.Option.{option_map};
ghost use Rattle.cmd_arguments.specs.Options.{AreNamed, ArePorts, IsBadValue, IsCount};
ghost use Rattle.cmd_arguments.specs.Options.{IsChoice, IsFieldsFault, IsGiven, IsGivenOr};
ghost use Rattle.cmd_arguments.specs.Options.{IsMoment, IsRead};
ghost use Rattle.cmd_arguments.specs.Options.{IsSelection, IsUnread, IsWhole, is_skipping};
ghost use Rattle.cmd_arguments.specs.Options.{bare_digits, has_marks, texts_in, time_named};
ghost use Rattle.cmd_arguments.specs.Options.{value_in};
ghost use Rattle.cmd_stats.specs.Units.{listed};

use crate::bad_argument::BadArgument;
use crate::conditions::AskedConditions;
use cap_pcap::Format;
use clap::ArgMatches;
use cmd_captures::{Choice, Field, Kinds, Selection, Time, utc_moment};
use cmd_stats::replay::PortList;
use its_gnvalue::{GnAddress, Mac};
use its_outside::StandardKind;
use std::alloc::{AllocError, Global};
use std::num::NonZeroU64;
use std::str::FromStr;

/// The kinds of packet of the profile, and the other ones of the standard.
const PROFILE_KINDS: [StandardKind; 4] = [
    StandardKind::Beacon,
    StandardKind::Shb,
    StandardKind::Gbc,
    StandardKind::Gac,
];

const OTHER_KINDS: [StandardKind; 4] = [
    StandardKind::Guc,
    StandardKind::Tsb,
    StandardKind::LsRequest,
    StandardKind::LsReply,
];

/// Returns the one of these kinds with this keyword.
fn kind_named(kinds: &[StandardKind], word: &str) -> Option<StandardKind> {
    kinds.iter().copied().find(|kind| kind.word() == word)
}

/// Adds a kind to those that are selected.
fn add_kind(kinds: &mut Kinds, kind: StandardKind) {
    match kind {
        StandardKind::Beacon => kinds.beacon = true,
        StandardKind::Guc => kinds.guc = true,
        StandardKind::Gac => kinds.gac = true,
        StandardKind::Gbc => kinds.gbc = true,
        StandardKind::Shb => kinds.shb = true,
        StandardKind::Tsb => kinds.tsb = true,
        StandardKind::LsRequest => kinds.ls_request = true,
        StandardKind::LsReply => kinds.ls_reply = true,
    }
}

/// A list of kinds of packet of the profile.
#[derive(Clone, Copy)]
struct KindList(Kinds);

impl FromStr for KindList {
    type Err = ();

    fn from_str(words: &str) -> Result<KindList, ()> {
        let mut kinds = Kinds::none();
        for word in words.split(',') {
            let kind = kind_named(&PROFILE_KINDS, word).ok_or(())?;
            add_kind(&mut kinds, kind);
        }
        Ok(KindList(kinds))
    }
}

/// A list of kinds of packet of the standard.
#[derive(Clone, Copy)]
struct AllKindList(Kinds);

impl FromStr for AllKindList {
    type Err = ();

    fn from_str(words: &str) -> Result<AllKindList, ()> {
        let mut kinds = Kinds::none();
        for word in words.split(',') {
            let kind = kind_named(&PROFILE_KINDS, word).or(kind_named(&OTHER_KINDS, word));
            add_kind(&mut kinds, kind.ok_or(())?);
        }
        Ok(AllKindList(kinds))
    }
}

/// Returns the kinds that a list names, separated by commas: those of the profile, or all.
pub(crate) fn kinds_in(words: &str, all_kinds: bool) -> Option<Kinds> {
    if all_kinds {
        return words.parse::<AllKindList>().ok().map(|list| list.0);
    }
    words.parse::<KindList>().ok().map(|list| list.0)
}

/// The digits of a station's address.
#[derive(Clone, Copy)]
pub(crate) struct AddressDigits(pub(crate) GnAddress);

impl FromStr for AddressDigits {
    type Err = ();

    ghost use Rattle.std.specs.Net.Grammar.{Parses};
    ghost use Rattle.cmd_arguments.specs.Options.{IsAddress};

    ghost from_str_gives = { Parses (λ text digits. IsAddress text digits.0) };

    fn from_str(digits: &str) -> Result<AddressDigits, ()> {
        let mut octets = [0; 8];
        hex::decode_to_slice(digits, &mut octets).map_err(|_| ())?;
        let address = GnAddress::from_u64(u64::from_be_bytes(octets)).map_err(|_| ())?;
        Ok(AddressDigits(address))
    }
}

/// The digits of a link address.
#[derive(Clone, Copy)]
pub(crate) struct MacDigits(pub(crate) Mac);

impl FromStr for MacDigits {
    type Err = ();

    ghost use Rattle.std.specs.Net.Grammar.{Parses};
    ghost use Rattle.cmd_arguments.specs.Options.{IsMac};

    ghost from_str_gives = { Parses (λ text digits. IsMac text digits.0) };

    fn from_str(text: &str) -> Result<MacDigits, ()> {
        let octets = decode(text.as_bytes())?;
        Ok(MacDigits(Mac::from_octets(octets)))
    }
}

/// Returns the octets of the digits of a link address. A colon or a hyphen may separate each two.
fn decode(text: &[u8]) -> Result<[u8; 6], ()>
    ensures { MatchResult result
        (λ octets. decode_sized (bare_digits text.now) 6 ≡ Ok octets)
        (λ _. (octets : List ℕ) → ¬ (decode_sized (bare_digits text.now) 6 ≡ Ok octets)) }
{
    let mut octets = [0; 6];
    if has_marks(text, b':') || has_marks(text, b'-') {
        let digits = [
            text[0], text[1], text[3], text[4], text[6], text[7], text[9], text[10], text[12],
            text[13], text[15], text[16],
        ];
        hex::decode_to_slice(digits, &mut octets).map_err(|_| ())?;
    } else {
        hex::decode_to_slice(text, &mut octets).map_err(|_| ())?;
    }
    Ok(octets)
}

/// Whether six pairs of digits have this mark between them.
fn has_marks(text: &[u8], mark: u8) -> bool
    ensures { result ≡ has_marks mark text.now }
{
    text.len() == 17
        && text[2] == mark
        && text[5] == mark
        && text[8] == mark
        && text[11] == mark
        && text[14] == mark
}

/// A time: a number of milliseconds, or date and time in UTC.
#[derive(Clone, Copy)]
struct MomentText(u64);

impl FromStr for MomentText {
    type Err = ();

    ghost use Rattle.std.specs.Prelude.{IfOk};
    ghost use Rattle.cmd_arguments.specs.Options.{IsMoment};

    ghost from_str_gives = { λ text result. IfOk result (λ moment. IsMoment text moment.0) };

    fn from_str(text: &str) -> Result<MomentText, ()> {
        match text.parse() {
            Ok(moment) => Ok(MomentText(moment)),
            Err(_) => utc_moment(text).map(MomentText).ok_or(()),
        }
    }
}

/// What the value of an option has to be.
const MOMENT: &str =
    "a whole number of milliseconds, or a UTC time such as 2023-11-14T22:13:20.123Z";

const COUNT: &str = "a whole number of at least 1";

pub(crate) const MAC: &str =
    "12 hexadecimal digits, with colons, hyphens or nothing between the pairs";

pub(crate) const PORT: &str = "a whole number in 0..=65535";

/// Reads the value of an option, if it is given.
pub(crate) fn value_of<'a, T: FromStr>(
    matches: &ArgMatches<'a>,
    option: &'a str,
    wanted: &'a str,
) -> Result<Option<T>, BadArgument<'a>>
where
    T::Err: Drop,
    ensures { MatchResult result
        (IsRead T.from_str_gives (value_in matches.now option.now))
        (IsUnread T.from_str_gives option.now (value_in matches.now option.now)) }
{
    let Some(word) = matches.get_str(option) else {
        return Ok(None);
    };
    match word.parse() {
        Ok(value) => Ok(Some(value)),
        Err(_) => Err(BadArgument::Value(option, word, wanted)),
    }
}

/// Reads which records of a file of this format a command selects: those for all ports, or for the
/// one that `--port` names. Returns the fault of the first option with an invalid value. `--port`
/// is the last.
///
/// - `selection`: the format is the given one. `--count`, `--source` and `--from-mac` (with colons
///   or hyphens, or without) are what their texts spell. `--since` and `--until` are the number
///   that their text is, if it is a whole number. Without these options all records are selected.
///   `--refused` selects rejected records. Other protocols are skipped if and only if
///   `--not-geonetworking` is `skip`. `--all-kinds` selects frames of all kinds. `--to-mac`,
///   `--hops`, `--class`, `--number`, `--area`, `--any` and `--not` are the conditions that their
///   texts list.
/// - `port`: the port is the 16-bit number that `--port` spells. `None` if it isn't given, or has
///   another use.
pub fn selection_of<'a>(
    matches: &ArgMatches<'a>,
    format: Option<Format>,
) -> Result<Selection, BadArgument<'a>>
    ensures selection { IfOk result (IsSelection matches.now format) }
    ensures port { IfOk result (λ selection.
        IsGiven (IsWhole 16) (value_in matches.now (codes "port")) selection.choice.port) }
{
    let selection = selection_to_any_port(matches, format)?;
    Ok(Selection {
        choice: Choice {
            port: value_of(matches, "port", PORT)?,
            ..selection.choice
        },
        ..selection
    })
}

/// Reads the selection as `selection_of` does, for all ports. It is for a command whose `--port`
/// has another use.
pub fn selection_to_any_port<'a>(
    matches: &ArgMatches<'a>,
    format: Option<Format>,
) -> Result<Selection, BadArgument<'a>>
    ensures selection { IfOk result (IsSelection matches.now format) }
    ensures port { IfOk result (λ selection. selection.choice.port ≡ None) }
{
    Ok(Selection {
        format,
        choice: choice_of(matches)?,
        count: count_of(matches, "count")?,
        partial: matches.get_flag("partial"),
        signed: matches.get_flag("signed"),
    })
}

/// Reads the ports that a station opens at its start, by `--port`: at most 64, each given once.
/// Returns the fault of the first that is not a port, is given twice, or is the 65th.
pub fn ports_of<'a>(matches: &ArgMatches<'a>) -> Result<PortList, BadArgument<'a>>
    ensures { IfOk result (λ ports.
        ArePorts (texts_in matches.now (codes "port")) (listed ports)) }
{
    ports_in(matches.get_strs("port").unwrap_or(&[]))
}

/// Reads the ports with these numbers.
fn ports_in<'a>(words: &[&'a str]) -> Result<PortList, BadArgument<'a>>
    ensures { IfOk result (λ ports. ArePorts (map (λ word. word.now) words.now) (listed ports)) }
{
    let mut ports = PortList::new();
    for word in words {
        let Ok(port) = word.parse() else {
            return Err(BadArgument::Value("port", word, PORT));
        };
        if ports.add(port).is_err() {
            let wanted = "one of at most 64 different ports";
            return Err(BadArgument::Value("port", word, wanted));
        }
    }
    Ok(ports)
}

/// Reads a count, 1 or more. `None` if the option isn't given.
pub fn count_of<'a>(
    matches: &ArgMatches<'a>,
    option: &'a str,
) -> Result<Option<u64>, BadArgument<'a>>
    ensures { MatchResult result
        (IsGiven IsCount (value_in matches.now option.now))
        (IsBadValue IsCount option.now (value_in matches.now option.now)) }
{
    let count = value_of::<NonZeroU64>(matches, option, COUNT)?;
    Ok(count.map(NonZeroU64::get))
}

/// Reads which records are selected, for any port.
fn choice_of<'a>(matches: &ArgMatches<'a>) -> Result<Choice, BadArgument<'a>>
    ensures choice { IfOk result (IsChoice matches.now) }
    ensures port { IfOk result (λ choice. choice.port ≡ None) }
{
    let all_kinds = matches.get_flag("all-kinds");
    let kinds = kinds_of(matches, all_kinds)?;
    let wanted = "the 16 hexadecimal digits of a station's address";
    let source = value_of::<AddressDigits>(matches, "source", wanted)?;
    let from = value_of::<MacDigits>(matches, "from-mac", MAC)?;
    let asked = AskedConditions::of(matches, all_kinds)?;
    let since = moment_of(matches, "since", 0)?;
    let until = moment_of(matches, "until", u64::MAX)?;
    Ok(Choice {
        kinds,
        source: source.map(|digits| digits.0),
        from: from.map(|digits| digits.0),
        port: None,
        all: asked.all,
        any: asked.any,
        leaves_out: asked.leaves_out,
        since,
        until,
        refused: matches.get_flag("refused"),
        skips_others: skips_others(matches),
        all_kinds,
    })
}

/// Reads the kinds that are selected, if `--kind` is given: those of the profile, or all.
fn kinds_of<'a>(
    matches: &ArgMatches<'a>,
    all_kinds: bool,
) -> Result<Option<Kinds>, BadArgument<'a>> {
    if all_kinds {
        let wanted = "a list of beacon, shb, gbc, gac, guc, tsb, ls-request and ls-reply";
        let list = value_of::<AllKindList>(matches, "kind", wanted)?;
        return Ok(list.map(|list| list.0));
    }
    let wanted = "a list of beacon, shb, gbc and gac";
    let list = value_of::<KindList>(matches, "kind", wanted)?;
    Ok(list.map(|list| list.0))
}

/// Reads the first and the last time, by `--since` and `--until`.
pub fn times_of<'a>(matches: &ArgMatches<'a>) -> Result<(u64, u64), BadArgument<'a>>
    ensures since { IfOk result (λ times.
        IsGivenOr IsMoment 0 (value_in matches.now (codes "since")) times.0) }
    ensures until { IfOk result (λ times.
        IsGivenOr IsMoment u64.MAX (value_in matches.now (codes "until")) times.1) }
{
    let since = moment_of(matches, "since", 0)?;
    let until = moment_of(matches, "until", u64::MAX)?;
    Ok((since, until))
}

/// Reads the time of an option, or returns the other one if it isn't given.
fn moment_of<'a>(
    matches: &ArgMatches<'a>,
    option: &'a str,
    other: u64,
) -> Result<u64, BadArgument<'a>>
    ensures { IfOk result (IsGivenOr IsMoment other (value_in matches.now option.now)) }
{
    match value_of::<MomentText>(matches, option, MOMENT)? {
        Some(moment) => Ok(moment.0),
        None => Ok(other),
    }
}

/// Whether records of other protocols are skipped, by the keyword of `--not-geonetworking`.
fn skips_others(matches: &ArgMatches<'_>) -> bool
    ensures { result ≡ is_skipping (value_in matches.now (codes "not-geonetworking")) }
{
    match matches.get_str("not-geonetworking") {
        Some("skip") => true,
        _ => false,
    }
}

/// Reads how times are printed: by the keyword of `--time`, or as milliseconds.
pub fn time_of(matches: &ArgMatches<'_>) -> Time
    ensures { result ≡ time_named (value_in matches.now (codes "time")) }
{
    match matches.get_str("time") {
        Some("exact") => Time::Exact,
        Some("utc") => Time::Utc,
        Some("relative") => Time::Relative,
        Some("delta") => Time::Delta,
        _ => Time::Raw,
    }
}

/// Reads the keys whose values are shown, if `--fields` lists them, separated by commas. Refused if
/// a key is unknown, or is one of secured frames and `--signed` isn't given. `OutOfMemory` if an
/// allocation failed.
///
/// - `named`: the keys are those that `--fields` lists: their names, with a comma between each two,
///   are its text; none if it isn't given.
pub fn fields_of<'a>(
    alloc: Global,
    matches: &ArgMatches<'a>,
) -> Result<Option<Vec<Field>>, BadArgument<'a>>
    ensures named { IfOk result (λ fields. IsGiven AreNamed (value_in matches.now (codes "fields"))
        (option_map (λ fields. fields.items) fields)) }
    ensures fault { IfErr result (IsFieldsFault (value_in matches.now (codes "fields"))) }
{
    let Some(names) = matches.get_str("fields") else {
        return Ok(None);
    };
    let Some(fields) = fields_in(alloc, names)? else {
        let wanted = "a list of the keys that show --help lists";
        return Err(BadArgument::Value("fields", names, wanted));
    };
    let needs_signed = fields.iter().any(|field| field.is_of_secured());
    if needs_signed && !matches.get_flag("signed") {
        let wanted = "a list of keys that are there without --signed";
        return Err(BadArgument::Value("fields", names, wanted));
    }
    Ok(Some(fields))
}

/// Returns the keys with these names, separated by commas, in their order. `None` if one is
/// unknown.
fn fields_in(alloc: Global, names: &str) -> Result<Option<Vec<Field>>, AllocError>
    ensures { IfOk result (λ fields. IfSome fields (λ fields. AreNamed names.now fields.items)) }
{
    let mut fields = Vec::new(alloc);
    for name in names.split(',') {
        match Field::named(name) {
            Some(field) => fields.push(field)?,
            None => return Ok(None),
        }
    }
    Ok(Some(fields))
}
