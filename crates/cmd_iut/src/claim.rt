//! The claims that `--assume` makes true.

use its_duties::Claims;

/// A claim that is false unless the station file or `--assume` makes it true.
#[derive(Clone, Copy, Debug, PartialEq, Eq)]
pub enum Claim {
    /// Each frame that the station sent is in the capture.
    Sent,
    /// Each frame that it received is in the capture.
    Received,
    /// The station received each frame of the capture that is for it.
    Delivered,
    /// It knew of no other station when the capture began.
    Fresh,
    /// It did not restart, and its clock was not set.
    Steady,
    /// It uses no sequence number without a frame.
    Gapless,
    /// It has no limit on what it forwards.
    Unlimited,
    /// It keeps no packet to send it later.
    Unbuffered,
    /// It processes only the frames of this project's profile.
    Profile,
}

/// All claims, in the order in which they are printed.
pub(crate) const CLAIMS: [Claim; 9] = [
    Claim::Sent,
    Claim::Received,
    Claim::Delivered,
    Claim::Fresh,
    Claim::Steady,
    Claim::Gapless,
    Claim::Unlimited,
    Claim::Unbuffered,
    Claim::Profile,
];

impl Claim {
    /// Returns its name, in the station file and after `--assume`.
    pub fn word(self) -> &'static str {
        match self {
            Claim::Sent => "sent",
            Claim::Received => "received",
            Claim::Delivered => "delivered",
            Claim::Fresh => "fresh",
            Claim::Steady => "steady",
            Claim::Gapless => "gapless",
            Claim::Unlimited => "unlimited",
            Claim::Unbuffered => "unbuffered",
            Claim::Profile => "profile",
        }
    }

    /// Returns the claim with this name.
    pub fn named(word: &str) -> Option<Claim> {
        CLAIMS.iter().copied().find(|claim| claim.word() == word)
    }

    /// Whether it is true.
    pub(crate) fn is_made(self, claims: &Claims) -> bool {
        match self {
            Claim::Sent => claims.sent,
            Claim::Received => claims.received,
            Claim::Delivered => claims.delivered,
            Claim::Fresh => claims.fresh,
            Claim::Steady => claims.steady,
            Claim::Gapless => claims.gapless,
            Claim::Unlimited => claims.unlimited,
            Claim::Unbuffered => claims.unbuffered,
            Claim::Profile => claims.profile,
        }
    }

    /// Returns these claims with this one true.
    fn made_in(self, claims: &Claims) -> Claims {
        let mut made = *claims;
        match self {
            Claim::Sent => made.sent = true,
            Claim::Received => made.received = true,
            Claim::Delivered => made.delivered = true,
            Claim::Fresh => made.fresh = true,
            Claim::Steady => made.steady = true,
            Claim::Gapless => made.gapless = true,
            Claim::Unlimited => made.unlimited = true,
            Claim::Unbuffered => made.unbuffered = true,
            Claim::Profile => made.profile = true,
        }
        made
    }
}

/// The claims that are assumed: for each claim of `CLAIMS`, in order, whether it is.
#[derive(Clone, Copy, Debug, PartialEq, Eq)]
pub struct ClaimSet([bool; 9]);

impl ClaimSet {
    /// Returns the empty set.
    pub fn none() -> ClaimSet {
        ClaimSet([false; 9])
    }

    /// Returns the set with this claim in addition.
    pub fn with(self, claim: Claim) -> ClaimSet {
        let mut set = self;
        for (place, other) in CLAIMS.iter().enumerate() {
            if *other == claim
                && let Some(made) = set.0.get_mut(place)
            {
                *made = true;
            }
        }
        set
    }

    /// Whether the set has a claim.
    pub(crate) fn has(self, claim: Claim) -> bool {
        let place = CLAIMS.iter().position(|other| *other == claim);
        place.is_some_and(|place| self.0.get(place) == Some(&true))
    }

    /// Returns the claims of the set that are false in these claims.
    pub(crate) fn beyond(self, claims: &Claims) -> ClaimSet {
        let mut set = ClaimSet::none();
        for claim in CLAIMS {
            if self.has(claim) && !claim.is_made(claims) {
                set = set.with(claim);
            }
        }
        set
    }

    /// Returns these claims with each claim of the set true.
    pub(crate) fn assumed_in(self, claims: &Claims) -> Claims {
        let mut all = *claims;
        for claim in CLAIMS {
            if self.has(claim) {
                all = claim.made_in(&all);
            }
        }
        all
    }
}
