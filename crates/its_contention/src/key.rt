//! The key of a frame: a number that its copies share, and that other frames hardly have.

ghost use Rattle.std.specs.Prelude.{◌≡◌, ◌+◌, ◌≤◌, length, drop};
ghost use Rattle.byteorder.specs.Endian.{big_number};
ghost use Rattle.its_contention.specs.Key.{key_of};

use byteorder::{BigEndian, ByteOrder};

/// From where on all octets are the same in all copies: after the lifetime.
const SHARED: usize = 17;
/// Where in them the sequence number of an unsecured packet begins.
const NUMBER: usize = 9;
/// Where in them the address of its source begins.
const ADDRESS: usize = 13;
/// How many octets are read at once.
const WORD: usize = 8;

/// Octets that came, with their key.
#[derive(Drop)]
pub(crate) struct KeyedOctets<'a> {
    octets: &'a [u8],
    key: u64,
    ghost keyed: { key ≡ key_of octets.now },
}

impl<'a> KeyedOctets<'a> {
    /// These octets.
    pub(crate) fn new(octets: &'a [u8]) -> KeyedOctets<'a>
        ensures { result.octets.now ≡ octets.now }
    {
        KeyedOctets {
            octets,
            key: key_of(octets),
        }
    }

    /// The octets.
    pub(crate) fn octets(&self) -> &'a [u8]
        ensures { result.now ≡ self.now.octets.now }
    {
        self.octets
    }

    /// Their key.
    pub(crate) fn key(&self) -> u64
        ensures { result ≡ key_of self.now.octets.now }
    {
        self.key
    }
}

/// Returns the key of a frame with these octets. It is made of the sequence number and the source's
/// address of an unsecured packet, and of the last octets, which are the signature of a secured one.
pub(crate) fn key_of(octets: &[u8]) -> u64
    ensures { result ≡ key_of octets.now }
{
    if octets.len() < SHARED + ADDRESS + WORD {
        return 0;
    }
    let (_, shared) = octets.split_at(SHARED);
    let number = word_at(shared, NUMBER);
    let address = word_at(shared, ADDRESS);
    let last = word_at(shared, shared.len() - WORD);
    number.wrapping_add(address).wrapping_add(last)
}

/// The number in the 8 octets from a place on.
fn word_at(octets: &[u8], place: usize) -> u64
    requires { place + 8 ≤ length octets.now }
    ensures { result ≡ big_number 8 (drop place octets.now) }
{
    let (_, word) = octets.split_at(place);
    BigEndian::read_u64(word)
}
