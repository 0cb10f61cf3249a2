//! The payload of a packet.

ghost use Rattle.std.specs.Prelude.{◌≡◌, ◌≤◌, ◌<◌, ◌⊎◌, length, MatchResult};

use std::marker::Model;

/// The fewest octets of a payload: a BTP-B header (EN 302 636-5-1).
pub const SHORTEST_PAYLOAD: usize = 4;

/// The most octets of a payload (profile).
pub const LONGEST_PAYLOAD: usize = 1398;

/// The payload of a packet: 4 to 1398 octets (profile), which begin with the BTP-B header
/// (EN 302 636-5-1).
#[derive(Debug, Drop)]
pub struct Payload {
    octets: Vec<u8>,
}

impl Model for Payload {
    ghost use Rattle.std.specs.Prelude.{◌≤◌, ℕ, List, length};

    ghost Value = { List ℕ };

    ghost view = { λ p. p.octets.items };

    ghost invariant = { λ p. (4 ≤ length p.octets.items) × (length p.octets.items ≤ 1398) };
}

impl PartialEq for Payload {
    ghost use Rattle.std.specs.Cmp.Lexicographic.{pointwise, nat_list_eq_equiv};
    ghost use Rattle.std.specs.Prelude.{nat_eq};
    ghost use Rattle.std.specs.Cmp;

    ghost eq = { λ a b. pointwise nat_eq a b };

    ghost laws = { Cmp.partial_equiv_from_equiv nat_list_eq_equiv };

    fn eq(&self, other: &Payload) -> bool {
        other.octets == self.octets
    }
}

impl Eq for Payload {
    ghost use Rattle.std.specs.Cmp.Lexicographic.{nat_list_eq_equiv};

    ghost laws = { nat_list_eq_equiv };
}

impl Payload {
    /// The payload of these octets, or the vector back exactly where they are under 4 or over 1398.
    pub fn new(octets: Vec<u8>) -> Result<Payload, Vec<u8>>
        ensures { MatchResult result
            (λ p. (p ≡ octets.items) × (4 ≤ length octets.items) × (length octets.items ≤ 1398))
            (λ v. (v ≡ octets) × ((length octets.items < 4) ⊎ (1398 < length octets.items))) }
    {
        if octets.len() < SHORTEST_PAYLOAD || octets.len() > LONGEST_PAYLOAD {
            return Err(octets);
        }
        Ok(Payload { octets })
    }

    /// The payload of octets of which it is known that they are 4 to 1398.
    pub(crate) fn of(octets: Vec<u8>) -> Payload
        requires low { 4 ≤ length octets.items }
        requires high { length octets.items ≤ 1398 }
        ensures { result ≡ octets.items }
    {
        Payload { octets }
    }

    /// The octets, 4 to 1398: the BTP-B header first.
    pub fn octets(&self) -> &[u8]
        ensures value { result.now ≡ self.now }
        ensures low { 4 ≤ length self.now }
        ensures high { length self.now ≤ 1398 }
    {
        &self.octets
    }

    /// The vector of these octets, 4 to 1398. No memory is taken.
    pub fn into_octets(self) -> Vec<u8>
        ensures value { result.items ≡ self }
        ensures low { 4 ≤ length self }
        ensures high { length self ≤ 1398 }
    {
        self.octets
    }
}
