//! Laws of the definitions, each a function whose contract is the law.

ghost use Rattle.std.specs.Prelude.{◌≡◌, ℕ, List, IsTrue, Some};
ghost use Rattle.its_model.specs.Packet.{Transmission};
ghost use Rattle.its_governor.specs.declared.bucket.Bucket.{Bucket};
ghost use Rattle.its_governor.specs.Bucket.{MayPass, IsBounded};
ghost use Rattle.its_governor.specs.Sources.{SourceState, Forwarded, SourcesMayPass};
ghost use Rattle.its_governor.specs.Sources.{SourcesAreBounded};
ghost use Rattle.its_governor.specs.declared.governor.Governor.{Governor as Limited};
ghost use Rattle.its_governor.specs.declared.rate.Limits.{Limits};
ghost use Rattle.its_governor.specs.declared.rate.Rate.{Rate};
ghost use Rattle.its_governor.specs.Forwarding.{ForwardsAreBounded, SourcesStayBounded};
ghost use Rattle.its_governor.specs.Forwarding.{RemembersSources, IsWithheld};
ghost use Rattle.its_governor.specs.declared.receiver.Receiver.{Receiver};
ghost use Rattle.its_governor.specs.Governing.{IsNewGovernor};
ghost use Rattle.its_governor.specs.Sharing.{SharesAreKept, NewSourcesTakeNothing};
ghost use Rattle.its_governor.specs.Deliveries.{AreApart, AreOwed};

/// Where a bucket lets frames pass at these times, there are in each stretch of time, its ends
/// included, at most as many as its burst and what its rate adds in the stretch.
pub fn bucket_is_bounded()
    ensures { (b : Bucket) (times : List ℕ) → MayPass b times → IsBounded b.rate times }
{}

/// Where the buckets of sources let frames pass, and these are no more than are kept, there are of
/// each source in each stretch of time at most as many as its burst and what its rate adds.
pub fn sources_are_bounded()
    ensures { (s : SourceState) (frames : List Forwarded) → SourcesMayPass s frames →
        SourcesAreBounded s frames }
{}

/// After every list of calls, a payload that the station hands out is delivered, if no copy of its
/// packet was delivered whose lifetime is not over. A copy has the same source, sequence number and
/// time stamp.
pub fn deliveries_are_owed()
    ensures { (limits : Limits) (g : Limited) → IsNewGovernor limits g → AreOwed g }
{}

/// In every list of calls of a station that delivers once, two deliveries of one packet are a
/// lifetime of the first one apart, or 1024 other packets were delivered between them.
pub fn deliveries_are_apart()
    ensures { (limits : Limits) (g : Limited) → IsNewGovernor limits g →
        IsTrue limits.delivers_once → AreApart g }
{}

/// In every list of calls, in each stretch of time, its ends included, at most as many frames are
/// forwarded as the burst of the common limit and what its rate adds in the stretch.
pub fn forwards_are_bounded()
    ensures { (limits : Limits) (g : Limited) (rate : Rate) → IsNewGovernor limits g →
        limits.forward ≡ Some rate → ForwardsAreBounded g rate }
{}

/// The frames of each source that are forwarded keep the limit per source, if the rates are such that
/// no bucket is forgotten before it is full (`Limits::remembers_sources`).
pub fn sources_stay_bounded()
    ensures { (limits : Limits) (g : Limited) (forward source : Rate) → IsNewGovernor limits g →
        limits.forward ≡ Some forward → limits.source ≡ Some source →
        RemembersSources (Some forward) source → SourcesStayBounded g source }
{}

/// A packet that the station would forward is withheld only if it was delivered before and is
/// remembered, has more hops left than the greatest, finds no room in one of its two buckets, or is
/// withheld under pressure. That is only while the bucket of all forwarded frames holds less than
/// four fifths of its burst, and only if the receiver did not know the source before, the source is
/// not within its share, or the frame's turn has not come.
pub fn withheld_for_a_reason()
    ensures { (g : Limited) (r : Receiver) (now : ℕ) (t : Transmission) → IsWithheld g r now t }
{}

/// After every list of calls, a frame that keeps the rules of pressure is forwarded: its receiver knew
/// the source before, the source is within its share, and the frame's turn has come. It has to be no
/// echo, to have no more hops left than the greatest, and to find room in both buckets.
pub fn shares_are_kept()
    ensures { (g : Limited) → SharesAreKept g }
{}

/// After every list of calls, a frame of a source that its receiver did not know is forwarded only if
/// the bucket of all forwarded frames holds four fifths of its burst. So new sources take nothing of
/// the rest.
pub fn new_sources_take_nothing()
    ensures { (limits : Limits) (g : Limited) (forward source : Rate) → IsNewGovernor limits g →
        limits.forward ≡ Some forward → limits.source ≡ Some source → NewSourcesTakeNothing g }
{}
