//! The lines of a simulation, as text.

ghost use Rattle.std.specs.Prelude.{◌≡◌, false, true};

use crate::action::ActionWord;
use crate::fault::SimulationFault;
use crate::note::{Note, NoteText};
use crate::record::{EventRecord, HeldFrame};
use crate::sink::EventSink;
use its_world::World;
use std::fmt;
use std::io::Write;

/// Writes one line per entry, for example `2 1010 1 accepted port 2002 info 0 6869 sent 1`: the
/// number of the event, from 0, its time in milliseconds, its station and its entry.
#[derive(Drop)]
pub struct TextLines<'a, W> {
    out: &'a mut W,
    explain: bool,
    actions: bool,
    notes: bool,
}

impl<'a, W: Write> TextLines<'a, W> {
    /// Returns lines without what each event does, since the scenario says it. With `explain` a
    /// refusal is followed by its sentence in parentheses.
    pub fn new(out: &'a mut W, explain: bool) -> TextLines<'a, W>
        ensures explain { result.explain ≡ explain }
        ensures actions { result.actions ≡ false }
        ensures notes { result.notes ≡ false }
    {
        TextLines {
            out,
            explain,
            actions: false,
            notes: false,
        }
    }

    /// Returns lines with what each event does before its entry, for example `2 1001 1 deliver 0
    /// accepted sent 1`.
    pub fn with_actions(out: &'a mut W, explain: bool) -> TextLines<'a, W>
        ensures explain { result.explain ≡ explain }
        ensures actions { result.actions ≡ true }
        ensures notes { result.notes ≡ false }
    {
        TextLines {
            out,
            explain,
            actions: true,
            notes: false,
        }
    }

    /// Returns these lines with the lines of notes among them, for example `- 500 1 came`, if
    /// `notes` is set.
    pub fn noting(self, notes: bool) -> TextLines<'a, W>
        ensures { result ≡ record self.entry { notes = notes } }
    {
        TextLines { notes, ..self }
    }

    /// Writes a line with the heads of the columns. `Output` if the write fails.
    pub fn heads(&mut self) -> Result<(), SimulationFault>
        ensures explain { self.new.explain ≡ self.old.explain }
        ensures actions { self.new.actions ≡ self.old.actions }
        ensures notes { self.new.notes ≡ self.old.notes }
    {
        if self.actions {
            writeln!(self.out, "event time station action result")?;
        } else {
            writeln!(self.out, "event time station result")?;
        }
        Ok(())
    }
}

impl<W: Write> EventSink for TextLines<'_, W> {
    // What a text writes isn't said by contracts.
    ghost Took = { λ _ _ _. Unit {0} };

    fn put(&mut self, _world: &World, done: &EventRecord<'_>) -> Result<(), SimulationFault> {
        let EventRecord {
            number,
            moment,
            station,
            what,
            ..
        } = *done;
        write!(self.out, "{number} {moment} {station} ")?;
        if self.actions {
            write!(self.out, "{} ", ActionWord(what))?;
        }
        write!(self.out, "{}", done.keys().explaining(self.explain))?;
        writeln!(self.out, "{}", ContentionText(done))?;
        Ok(())
    }

    fn note(
        &mut self,
        _world: &World,
        moment: u64,
        note: &Note<'_>,
    ) -> Result<(), SimulationFault> {
        if self.notes && note.is_told() {
            writeln!(self.out, "{}", NoteText { moment, note })?;
        }
        Ok(())
    }
}

/// What a station that contends did with a frame. It prints for example as ` waits 1 until 1072` or
/// ` cancels 1,3`, or as nothing.
#[derive(Clone, Copy)]
struct ContentionText<'a>(&'a EventRecord<'a>);

impl fmt::Display for ContentionText<'_> {
    fn fmt<W: fmt::Write>(&self, f: &mut fmt::Formatter<W>) -> fmt::Result {
        let held = HeldFrame::of(self.0);
        if let (Some(frame), Some(until)) = (held.frame, held.until) {
            write!(f, " waits {frame} until {until}")?;
        }
        let mut before = " cancels ";
        for frame in self.0.cancelled_frames().unwrap_or(&[]) {
            write!(f, "{before}{frame}")?;
            before = ",";
        }
        Ok(())
    }
}
