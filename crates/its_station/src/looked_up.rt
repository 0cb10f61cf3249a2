//! What a station finds of a frame before it receives it.

ghost use Rattle.std.specs.Prelude.{◌≡◌, ◌≢◌, ◌≤◌, ◌^◌, ℕ, List, Err, IfOk, OnOk};
ghost use Rattle.its_model.specs.History.{Reception};
ghost use Rattle.its_model.specs.Station.{StationModel, verdict};
ghost use Rattle.its_loctable.specs.Content.{Represents};
ghost use Rattle.its_loctable.specs.Found.{verdict_of};
ghost use Rattle.its_loctable.specs.Heard.{verdict_at};
ghost use Rattle.its_station.specs.State.{model_of, RepresentsStation};
ghost use Rattle.its_station.specs.Receiving.{IsAdmitted, IsPlaceOf, IsVerdictOf, report_of};
ghost use Rattle.its_station.specs.Receiving.{why_unasked};

use crate::outcome::Why;
use crate::received::ReceivedFrame;
use crate::refused::Refused;
use crate::station::Station;
use its_gnvalue::Mac;
use its_loctable::{EntryIndex, Found, Heard, LocationStore};

/// What a station finds of a frame that it doesn't refuse. It holds until the station changes.
#[derive(Clone, Copy, Debug)]
pub enum LookedUp {
    /// The frame is ignored.
    Ignored(Why),
    /// The packet is new, and its source has an entry in the location table or there is room for it.
    New {
        /// What the packet says of its source.
        heard: Heard,
        /// Where the entry of the source is.
        index: EntryIndex,
    },
}

impl<S: LocationStore> Station<S> {
    /// Looks up what the station does with a frame: it ignores it, or accepts its packet (`take`).
    /// Errors are those of `receive_frame` but `NoMemory`. The source is looked up in the location
    /// table at most once.
    ///
    /// - `found`: what is found is the verdict of the model.
    /// - `place`: the entry of a new packet's source is at the index that is found.
    #[inline(always)]
    pub fn look_up<'a, F: ReceivedFrame<'a>>(
        &self,
        now: u64,
        frame: &F,
    ) -> Result<LookedUp, Refused>
        ensures found { (s : StationModel) → RepresentsStation self.now s →
            IsVerdictOf result (verdict s now (F.frame frame.now)) }
        ensures time { OnOk result ((self.now.clock ≤ now) × (now ≤ 2 ^ 62)) }
        ensures place { IfOk result (λ looked.
            IsPlaceOf looked self.now now (F.frame frame.now)) }
        ensures memory { result ≢ Err Refused.NoMemory }
    {
        self.check_moment(now)?;
        let heard = heard_of(frame);
        if let Some(why) = self.reason_to_ignore(frame, &heard) {
            return Ok(LookedUp::Ignored(why));
        }
        match self.find(now, &heard) {
            Found::Duplicate => Ok(LookedUp::Ignored(Why::Duplicate)),
            Found::Full => Err(Refused::TableFull),
            Found::New(index) => Ok(LookedUp::New { heard, index }),
        }
    }

    /// Returns what the location table finds of a packet's source: the one look-up of a reception.
    #[inline(always)]
    fn find(&self, now: u64, heard: &Heard) -> Found
        requires from { self.now.clock ≤ now }
        requires to { now ≤ 2 ^ 62 }
        ensures verdict { (history : List Reception) →
            Represents self.now.remember self.now.content history now →
            verdict_of result
            ≡ verdict_at self.now.remember self.now.capacity now heard.now history }
        ensures new { IsAdmitted self.now now heard.now result }
    {
        self.store.find(now, heard)
    }

    /// Returns why a frame is ignored before the location table is asked, if it is.
    #[inline(always)]
    fn reason_to_ignore<'a, F: ReceivedFrame<'a>>(&self, frame: &F, heard: &Heard) -> Option<Why>
        requires { heard.now ≡ report_of (F.frame frame.now).pdu }
        ensures { (ports : List ℕ) (history : List Reception) →
            result ≡ why_unasked (model_of self.now ports history) (F.frame frame.now) }
    {
        let source = heard.address();
        if frame.target() != self.mac() && frame.target() != Mac::BROADCAST {
            return Some(Why::NotForMe);
        }
        if source == self.vector.address() {
            return Some(Why::OwnSource);
        }
        if heard.neighbour() && source.mid() != frame.sender() {
            return Some(Why::SenderMismatch);
        }
        None
    }
}

/// Returns what a packet says of its source.
#[inline(always)]
fn heard_of<'a, F: ReceivedFrame<'a>>(frame: &F) -> Heard
    ensures { result ≡ report_of (F.frame frame.now).pdu }
{
    Heard::new(frame.vector(), frame.number())
}
