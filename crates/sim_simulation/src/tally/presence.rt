//! Which stations of a run are present, by its notes.

ghost use Rattle.std.specs.Prelude.{◌≡◌, ◌==◌, ◌&&◌, ℕ, not, nat_eq, IfOk, OnOk};
ghost use Rattle.std.specs.HashSet.{contains as has};
ghost use Rattle.its_geometry.specs.Area.{area_holds};
ghost use Rattle.its_model.specs.History.{is_among};
ghost use Rattle.sim_simulation.specs.Presences.{starts_absent, absent_after};

use crate::Note;
use its_geometry::contains;
use its_gnvalue::NoMemory;
use its_loctable::SortedTable;
use its_station::{OwnedGbcRequest, Station};
use std::alloc::Global;
use std::collections::HashSet;

/// The stations that are absent. A station that is present at the start is present until it
/// departs. A station that is absent at the start, or that a file of moves makes, is absent until
/// it arrives.
#[derive(Drop)]
pub struct Presence {
    absent: HashSet<usize>,
}

impl Presence {
    /// Returns the presence at the start. `present` says of each station, by its number, whether it
    /// is present.
    pub fn at_start(alloc: Global, present: &[bool]) -> Result<Presence, NoMemory>
        ensures { IfOk result (λ presence. (station : ℕ) →
            has nat_eq presence.absent station ≡ starts_absent present.now station) }
    {
        let mut absent = HashSet::new(alloc);
        for (station, is_present) in present.iter().enumerate() {
            if !*is_present {
                absent.insert(station)?;
            }
        }
        Ok(Presence { absent })
    }

    /// Takes a note of the run.
    pub fn take(&mut self, note: &Note<'_>) -> Result<(), NoMemory>
        ensures { OnOk result ((station : ℕ) → has nat_eq self.new.absent station
            ≡ absent_after note.now station (has nat_eq self.old.absent station)) }
    {
        match *note {
            Note::Made { station, .. } | Note::Left { station } => {
                self.absent.insert(station)?;
            }
            Note::Came { station } => {
                self.absent.remove(&station);
            }
            Note::Heard { .. } | Note::Lost { .. } | Note::Absent { .. } => {}
            Note::Released { .. } | Note::Dropped { .. } => {}
        }
        Ok(())
    }

    /// Whether a packet from this sender is for the station with this number: it is another
    /// station, is present and inside the area, and has the port open.
    pub fn is_for(
        &self,
        request: &OwnedGbcRequest,
        sender: usize,
        number: usize,
        station: &Station<SortedTable>,
    ) -> bool
        ensures { result ≡ (not (number == sender)
            && area_holds request.now.area station.now.vector.place
            && is_among request.now.port station.now.ports
            && not (has nat_eq self.now.absent number)) }
    {
        let within = contains(&request.area, station.vector().place());
        number != sender
            && within
            && station.is_open(request.port)
            && !self.absent.contains(&number)
    }
}
