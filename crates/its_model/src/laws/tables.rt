//! What a table of the stations that were heard has to keep, and what its look-ups are to find.

ghost use Rattle.std.specs.Prelude.{◌≡◌, ◌≢◌, ℕ, ◌+◌, ◌≤◌, ◌<◌, List, [], ◌∷◌, length, Option};
ghost use Rattle.std.specs.Prelude.{Some, None, is_some, find, Bool, IsTrue, true, false, nat_lt};
ghost use Rattle.std.specs.Prelude.{if◌then◌else◌, not, nat_le, ◌&&◌, ◌++◌, ◌↔◌};
ghost use Rattle.std.specs.Int.{abs_diff};
ghost use Rattle.std.specs.Option.{option_map, option_map_or};
ghost use Rattle.its_gnvalue.specs.Values.{Position};
ghost use Rattle.its_model.specs.History.{Reception, Known, entry_life, session, is_live, is_among};
ghost use Rattle.its_model.specs.History.{known, renewed, current_vector, is_neighbour};
ghost use Rattle.its_model.specs.History.{recent_numbers, of_source, moments_to, AreNear};
ghost use Rattle.its_model.specs.History.{IsLongestRun, NeverFell};
ghost use Rattle.its_model.specs.Stations.{stations_at, by_address, is_full, Rises, AreDistinct};
ghost use Rattle.its_model.specs.Decision.{distance_of, next_hop, Precedes};

/// The session of a source at a moment is the longest tail of its packets in which each two
/// neighbouring moments, and the last one and that moment, are less than an entry's life apart: the
/// later from the earlier, and either way where no moment fell. A source is live where its session
/// isn't empty.
///
/// - `run`, `none_longer`, `apart`: the session is that tail (fields `front`, `near`, `longest`),
///   and no such tail is longer. An entry's life is 20000 ms.
/// - `live`: a source is live if and only if its session isn't empty.
pub fn a_session_is_the_longest_run()
    ensures run { (source moment : ℕ) (history : List Reception) →
        IsLongestRun (of_source source history) moment (session source moment history) }
    ensures none_longer { (source moment : ℕ) (history run rest : List Reception) →
        of_source source history ≡ run ++ rest → AreNear (moments_to moment run) →
        length run ≤ length (session source moment history) }
    ensures apart { (source moment : ℕ) (history : List Reception)
        (newer older : List ℕ) (later earlier : ℕ) → NeverFell moment history →
        moments_to moment (session source moment history) ≡ newer ++ later ∷ earlier ∷ older →
        abs_diff later earlier < entry_life }
    ensures live { (source moment : ℕ) (history : List Reception) →
        IsTrue (is_live source moment history) ↔ (session source moment history ≢ []) }
{}

/// A packet goes on with its source's session or begins it again, and leaves the others'; between
/// packets a session stays as it is until it ends.
pub fn a_session_grows()
    ensures own { (source moment : ℕ) (r : Reception) (history : List Reception) →
        r.vector.address ≡ source →
        session source moment (r ∷ history)
        ≡ (if nat_lt moment (r.moment + entry_life) then r ∷ session source r.moment history
        else []) }
    ensures others { (source moment : ℕ) (r : Reception) (history : List Reception) →
        r.vector.address ≢ source →
        session source moment (r ∷ history) ≡ session source moment history }
    ensures stays { (source earlier later : ℕ) (history : List Reception) →
        earlier ≤ later → IsTrue (is_live source later history) →
        session source earlier history ≡ session source later history }
{}

/// What is known of a source after one more packet of it follows from what was known of it then. A
/// source is known exactly while it is live, by its own address.
pub fn what_is_known_is_renewed()
    ensures nothing { (remember source moment : ℕ) → known remember source moment [] ≡ None }
    ensures own { (remember source moment : ℕ) (r : Reception) (history : List Reception) →
        r.vector.address ≡ source →
        known remember source moment (r ∷ history)
        ≡ (if nat_lt moment (r.moment + entry_life)
        then Some (renewed remember (known remember source r.moment history) r) else None) }
    ensures others { (remember source moment : ℕ) (r : Reception) (history : List Reception) →
        r.vector.address ≢ source →
        known remember source moment (r ∷ history) ≡ known remember source moment history }
    ensures stays { (remember source earlier later : ℕ) (history : List Reception) →
        earlier ≤ later → IsTrue (is_live source later history) →
        known remember source earlier history ≡ known remember source later history }
    ensures live { (remember source moment : ℕ) (history : List Reception) →
        is_some (known remember source moment history) ≡ is_live source moment history }
    ensures address { (remember source moment : ℕ) (history : List Reception) (k : Known) →
        known remember source moment history ≡ Some k → k.vector.address ≡ source }
{}

/// What is known of a source is its current vector, whether it is a neighbour, and its recent
/// numbers.
pub fn what_is_known_is_current()
    ensures vector { (remember source moment : ℕ) (history : List Reception) →
        option_map (λ (k : Known). k.vector) (known remember source moment history)
        ≡ current_vector source moment history }
    ensures neighbour { (remember source moment : ℕ) (history : List Reception) →
        option_map_or (λ (k : Known). k.neighbour) (known remember source moment history) false
        ≡ is_neighbour source moment history }
    ensures numbers { (remember source moment : ℕ) (history : List Reception) →
        option_map_or (λ (k : Known). k.numbers) (known remember source moment history) []
        ≡ recent_numbers remember source moment history }
{}

/// The stations rise by address, and have at each address what is known of it. No other list does.
pub fn stations_stand_by_address()
    ensures rises { (remember moment : ℕ) (history : List Reception)
        → Rises (stations_at remember moment history) }
    ensures each { (remember moment : ℕ) (history : List Reception) (source : ℕ) →
        by_address source (stations_at remember moment history)
        ≡ known remember source moment history }
    ensures only { (remember moment : ℕ) (history : List Reception) (stations : List Known) →
        Rises stations →
        ((source : ℕ) → by_address source stations ≡ known remember source moment history) →
        stations ≡ stations_at remember moment history }
{}

/// A list that has each live source once is as long as the list of the stations. So there is no
/// room for a source exactly where it isn't live and as many others are as the capacity.
pub fn live_sources_are_counted()
    ensures full { (remember capacity source moment : ℕ) (history : List Reception) →
        is_full capacity source (stations_at remember moment history)
        ≡ (not (is_live source moment history)
        && nat_le capacity (length (stations_at remember moment history))) }
    ensures count { (remember moment : ℕ) (history : List Reception) (sources : List ℕ) →
        AreDistinct sources →
        ((source : ℕ) → is_among source sources ≡ is_live source moment history) →
        length sources ≡ length (stations_at remember moment history) }
{}

/// Among the stations that pass a test, the one with the least address is found, or none if no
/// station passes.
pub fn the_least_address_is_found()
    ensures found { (remember moment : ℕ) (history : List Reception) (test : Known → Bool)
        (k : Known) →
        find test (stations_at remember moment history) ≡ Some k →
        (known remember k.vector.address moment history ≡ Some k) × (test k ≡ true) }
    ensures least { (remember moment : ℕ) (history : List Reception) (test : Known → Bool)
        (k other : Known)
        (source : ℕ) → find test (stations_at remember moment history) ≡ Some k →
        known remember source moment history ≡ Some other → test other ≡ true
        → k.vector.address ≤ source }
    ensures none { (remember moment : ℕ) (history : List Reception) (test : Known → Bool)
        (other : Known)
        (source : ℕ) → find test (stations_at remember moment history) ≡ None →
        known remember source moment history ≡ Some other → test other ≡ false }
{}

/// The next hop is, of the neighbours that are nearer than the limit, the one of least distance and
/// then of least address. If no neighbour is nearer, there isn't a next hop.
pub fn the_nearest_is_taken()
    ensures found { (remember moment : ℕ) (history : List Reception) (centre : Position) (limit : ℕ)
        (k : Known) →
        next_hop centre limit (stations_at remember moment history) ≡ Some k →
        (known remember k.vector.address moment history ≡ Some k)
        × (k.neighbour ≡ true) × (distance_of centre k < limit) }
    ensures least { (remember moment : ℕ) (history : List Reception) (centre : Position) (limit : ℕ)
        (k other : Known) (source : ℕ) →
        next_hop centre limit (stations_at remember moment history) ≡ Some k →
        known remember source moment history ≡ Some other →
        other.neighbour ≡ true → distance_of centre other < limit → Precedes centre k other }
    ensures none { (remember moment : ℕ) (history : List Reception) (centre : Position) (limit : ℕ)
        (other : Known) (source : ℕ) →
        next_hop centre limit (stations_at remember moment history) ≡ None →
        known remember source moment history ≡ Some other → other.neighbour ≡ true →
        limit ≤ distance_of centre other }
{}
