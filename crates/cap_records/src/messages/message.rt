//! A message: unsecured data, or signed data with its header info.

ghost use Rattle.std.specs.Prelude.{◌≡◌, ◌≤◌, IfOk, length};
ghost use Rattle.its_formats.specs.Format.{Gives, value_of};
ghost use Rattle.cap_records.specs.Messages.{info_format, message_in, psid_format, signed_format};
ghost use Rattle.cap_records.specs.Messages.{signed_head, time_format, unsecured_format, walk};
ghost use Rattle.cap_records.specs.Messages.{LiesIn};

use crate::messages::cursor::{check_below, check_octet, data_at, number_at, unread};
use crate::messages::fault::MessageFault;
use std::marker::Model;

/// The supported protocol version.
const VERSION: u8 = 3;

/// The content types of a message: unsecured data and signed data.
const UNSECURED: u8 = 0x80;

const SIGNED: u8 = 0x81;

/// The least octet that is not a hash algorithm.
const NO_ALGORITHM: u8 = 0x80;

/// A signed payload has data, and no hash of other data.
const DATA_ALONE: u8 = 0x40;

/// What the header info of signed data says.
#[derive(Clone, Copy, Debug, PartialEq, Eq)]
pub struct HeaderInfo {
    /// The PSID, which names the application: below 2^32.
    pub psid: u64,
    /// The generation time in microseconds of TAI since 2004-01-01, if it is there.
    pub generated: Option<u64>,
}

/// What is read from a message.
#[derive(Debug, Drop)]
pub struct Message<'a> {
    start: usize,
    plain: &'a [u8],
    info: Option<HeaderInfo>,
}

impl<'a> Model for Message<'a> {
    ghost use Rattle.cap_records.specs.Messages.{SaidMessage};

    ghost Value = { SaidMessage };

    ghost view = { λ m. record { start = m.start; plain = m.plain.now; info = m.info } };
}

impl<'a> Message<'a> {
    /// Returns where the plain part begins in the message.
    pub fn start(&self) -> usize
        ensures { result ≡ self.now.start }
    {
        self.start
    }

    /// Returns the plain part, a slice of the message. Its signature is not verified.
    pub fn plain(&self) -> &'a [u8]
        ensures { result.now ≡ self.now.plain }
    {
        self.plain
    }

    /// Returns the header info of signed data. Unsecured data has none.
    pub fn info(&self) -> Option<HeaderInfo>
        ensures { result ≡ self.now.info }
    {
        self.info
    }
}

/// Reads the message of a secured packet, or returns its first fault: E1 at the first octet whose
/// value is not supported, E2 at the packet's length if the packet ends before the header info
/// does. What follows is not read: further header info, signer and signature.
#[tactic(auto, unfolding(crate::specs::Messages::message_in), using(its_formats::proofs::Walks::walk_after))]
pub fn read_message(message: &[u8]) -> Result<Message<'_>, MessageFault>
    ensures reading { result ≡ message_in message.now }
    ensures place { IfOk result (LiesIn message.now) }
{
    check_octet(message, 0, VERSION)?;
    let content = number_at(message, 1, 1)?;
    if content == u64::from(UNSECURED) {
        read_unsecured(message)
    } else if content == u64::from(SIGNED) {
        read_signed(message)
    } else {
        Err(unread(1))
    }
}

/// Reads unsecured data.
#[tactic(auto, unfolding(crate::specs::Messages::unsecured_format), using(its_formats::proofs::Walks::walk_after))]
fn read_unsecured(message: &[u8]) -> Result<Message<'_>, MessageFault>
    ensures reading { result ≡ value_of (walk unsecured_format 2 message.now) }
    ensures place { IfOk result (LiesIn message.now) }
{
    let (size, plain) = data_at(message, 2)?;
    Ok(Message {
        start: 2 + size,
        plain,
        info: None,
    })
}

/// Reads signed data.
#[tactic(auto, unfolding(crate::specs::Messages::signed_format), using(its_formats::proofs::Walks::walk_after))]
fn read_signed(message: &[u8]) -> Result<Message<'_>, MessageFault>
    ensures reading { result ≡ value_of (walk signed_format 2 message.now) }
    ensures place { IfOk result (LiesIn message.now) }
{
    check_signed_head(message)?;
    let (size, plain) = data_at(message, 6)?;
    let info = info_at(message, 6 + size + plain.len())?;
    Ok(Message {
        start: 6 + size,
        plain,
        info: Some(info),
    })
}

/// Checks the octets before the data of signed data.
#[tactic(auto, unfolding(crate::specs::Messages::signed_head), using(its_formats::proofs::Walks::walk_after))]
fn check_signed_head(message: &[u8]) -> Result<(), MessageFault>
    ensures reading { Gives (λ _. (tt, 6)) result (walk signed_head 2 message.now) }
    ensures here { IfOk result (λ _. 6 ≤ length message.now) }
{
    check_below(message, 2, NO_ALGORITHM)?;
    check_octet(message, 3, DATA_ALONE)?;
    check_octet(message, 4, VERSION)?;
    check_octet(message, 5, UNSECURED)
}

/// Reads the header info at a position.
#[tactic(auto, unfolding(crate::specs::Messages::info_format), using(its_formats::proofs::Walks::walk_after))]
fn info_at(message: &[u8], at: usize) -> Result<HeaderInfo, MessageFault>
    ensures { result ≡ value_of (walk info_format at message.now) }
{
    let flags = number_at(message, at, 1)?;
    psid_at(message, at + 1, flags / 64 % 2 == 1)
}

/// Reads the PSID at a position, and the generation time after it if it is there.
#[tactic(auto, unfolding(crate::specs::Messages::psid_format), using(its_formats::proofs::Walks::walk_after))]
fn psid_at(message: &[u8], at: usize, is_timed: bool) -> Result<HeaderInfo, MessageFault>
    ensures { result ≡ value_of (walk (psid_format is_timed) at message.now) }
{
    let count = number_at(message, at, 1)?;
    if count == 0 || count > 4 {
        return Err(unread(at));
    }
    let count = count as usize;
    let psid = number_at(message, at + 1, count)?;
    let generated = time_at(message, at + 1 + count, is_timed)?;
    Ok(HeaderInfo { psid, generated })
}

/// Reads the generation time at a position, if it is there.
#[tactic(auto, unfolding(crate::specs::Messages::time_format))]
fn time_at(message: &[u8], at: usize, is_there: bool) -> Result<Option<u64>, MessageFault>
    ensures { result ≡ value_of (walk (time_format is_there) at message.now) }
{
    if !is_there {
        return Ok(None);
    }
    let time = number_at(message, at, 8)?;
    Ok(Some(time))
}
