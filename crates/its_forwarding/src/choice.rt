//! The rules of selection, of simple and of greedy forwarding (EN 302 636-4-1 clauses 8 and 10, in
//! this profile).

ghost use Rattle.std.specs.Prelude.{◌≡◌, ◌^◌, ◌≤◌, IsFalse, List};
ghost use Rattle.its_model.specs.History.{Reception};
ghost use Rattle.its_model.specs.Stations.{stations_at};
ghost use Rattle.its_geometry.specs.Area.{area_holds};
ghost use Rattle.its_geometry.specs.Offsets.{squared_distance};
ghost use Rattle.its_model.specs.Decision.{decision, is_sender_inside, next_hop, toward};
ghost use Rattle.its_loctable.specs.Content.{Represents};
ghost use Rattle.its_loctable.specs.Nearest.{IsNearest};
ghost use Rattle.its_forwarding.specs.Chosen.{chosen};

use crate::nearest::find_next_hop;
use its_geometry::{Area, contains};
use its_gnvalue::{Mac, Place};
use its_loctable::{LocationStore, NearestSearch};

/// To whom a packet goes.
#[derive(Clone, Copy, Debug, PartialEq, Eq)]
pub enum Choice {
    /// To all stations in reach.
    Broadcast,
    /// To the station with this link address alone.
    To(Mac),
    /// To nobody.
    Drop,
}

/// Returns to whom a packet for this area goes from the own position. The first that applies:
///
/// - to all, if the area holds the own position (simple forwarding);
/// - to nobody, if it came from a sender that is known to be in the area, by an accurate position;
/// - to the neighbour that is nearest to the area's centre, of equally near ones the one of least
///   address, if it is nearer than the own position (greedy forwarding);
/// - otherwise to all.
///
/// It takes no memory. `now` is in milliseconds, at most 2^62.
pub fn choose<S: LocationStore>(
    store: &S,
    now: u64,
    own: Place,
    area: &Area,
    sender: Option<Mac>,
) -> Choice
    requires { now ≤ 2 ^ 62 }
    ensures { (history : List Reception) →
        Represents (S.remember store.now) (S.content store.now) history now →
        chosen result
        ≡ decision (stations_at (S.remember store.now) now history) own area.now sender }
{
    if contains(area, own) {
        return Choice::Broadcast;
    }
    if is_sender_inside(store, now, area, sender) {
        return Choice::Drop;
    }
    let nearest = store.nearest(now, area.centre());
    greedy(store, now, own, area, nearest)
}

/// Returns what `choose` does, for a station that knows that it is outside of the area: that is not
/// tested again. The store keeps the neighbour that is nearest to the area's centre, so the next
/// choices for the area need no walk over all neighbours.
pub fn choose_outside<S: LocationStore>(
    store: &mut S,
    now: u64,
    own: Place,
    area: &Area,
    sender: Option<Mac>,
) -> Choice
    requires moment { now ≤ 2 ^ 62 }
    requires outside { IsFalse (area_holds area.now own) }
    ensures choice { (history : List Reception) →
        Represents (S.remember store.old) (S.content store.old) history now →
        chosen result
        ≡ decision (stations_at (S.remember store.old) now history) own area.now sender }
    ensures unchanged { S.content store.new ≡ S.content store.old }
    ensures limit { S.limit store.new ≡ S.limit store.old }
    ensures remember { S.remember store.new ≡ S.remember store.old }
{
    if is_sender_inside(store, now, area, sender) {
        return Choice::Drop;
    }
    let nearest = store.keep_nearest(now, area.centre());
    greedy(store, now, own, area, nearest)
}

/// The choice of greedy forwarding: the neighbour that is nearest to the area's centre, if one is
/// nearer than the own place, or all. The store was asked for the nearest one.
fn greedy<S: LocationStore>(
    store: &S,
    now: u64,
    own: Place,
    area: &Area,
    nearest: NearestSearch,
) -> Choice
    requires moment { now ≤ 2 ^ 62 }
    requires nearest { (history : List Reception) →
        Represents (S.remember store.now) (S.content store.now) history now →
        IsNearest area.now.centre (stations_at (S.remember store.now) now history) nearest }
    ensures { (history : List Reception) →
        Represents (S.remember store.now) (S.content store.now) history now →
        chosen result ≡ toward (next_hop area.now.centre (squared_distance area.now.centre own)
        (stations_at (S.remember store.now) now history)) }
{
    match find_next_hop(store, now, area.centre(), own, nearest) {
        Some(address) => Choice::To(address.mid()),
        None => Choice::Broadcast,
    }
}

/// Whether the sender says that it is in the area, and that its place is accurate.
fn is_sender_inside<S: LocationStore>(store: &S, now: u64, area: &Area, sender: Option<Mac>) -> bool
    requires { now ≤ 2 ^ 62 }
    ensures { (history : List Reception) →
        Represents (S.remember store.now) (S.content store.now) history now →
        result ≡ is_sender_inside area.now sender (stations_at (S.remember store.now) now history) }
{
    let Some(mid) = sender else {
        return false;
    };
    match store.by_mid(now, mid) {
        Some(known) => known.vector.pai() && contains(area, known.vector.place()),
        None => false,
    }
}
