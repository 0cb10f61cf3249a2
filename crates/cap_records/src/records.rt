//! The records of a file, pulled one by one.

ghost use Rattle.std.specs.Prelude.{◌≡◌, ◌<◌, ◌+◌, ◌-◌, ◌^◌, IfOk, Ok, false};
ghost use Rattle.cap_pcap.specs.declared.record.Step.TheVariants as steps;
ghost use Rattle.cap_records.specs.Pulls.{IsNext, IsStep, MeetsStep, chosen_of, is_end};

use crate::counts::RecordCounts;
use crate::selection::Selection;
use cap_pcap::{RecordHeader, RecordSource, SourceFault, Step};
use std::alloc::AllocError;

/// How a command reads the records of a file, and decides which of them are selected.
pub trait RecordReader {
    ghost use Rattle.std.specs.Prelude.{ℕ, List, Option};
    ghost use Rattle.cap_pcap.specs.declared.record.RecordHeader.{RecordHeader};
    ghost use Rattle.cap_records.specs.declared.selection.Selection.{Selection};

    /// What is read from a record that is selected.
    type Record;

    /// What is read from a record with this header and these octets, and which octets the buffer
    /// has afterwards. Nothing is read if the record is not selected.
    ghost Reads: { Selection → RecordHeader → List ℕ → List ℕ → Option Self.Record → Type 0 };

    /// Reads a record, if it is selected. Its octets are in the buffer. `AllocError` if an allocation
    /// failed.
    fn read(
        &mut self,
        selection: &Selection,
        head: &RecordHeader,
        octets: &mut Vec<u8>,
    ) -> Result<Option<Self::Record>, AllocError>
        ensures { IfOk result (Reads selection.now head.now octets.old.items octets.new.items) };
}

/// The result of a pull.
#[derive(Debug, Drop, PartialEq, Eq)]
pub enum Pulled<T> {
    /// A record that is selected, and what was read from it.
    Chosen(RecordHeader, T),
    /// An interface begins in the file. Pull again.
    Interface,
    /// No record follows: the file ended, or has this fault, or as many records were selected as
    /// are wanted.
    End(Option<SourceFault>),
}

/// The records of a file, which are pulled one by one.
#[derive(Drop)]
pub struct Records<S: RecordSource + Drop, R: RecordReader + Drop> {
    /// The file.
    pub source: S,
    /// What reads its records.
    pub reader: R,
    /// The octets of the last record, as the reader left them.
    pub octets: Vec<u8>,
    /// How far the file was read.
    pub counts: RecordCounts,
    /// Which records are selected.
    pub selection: Selection,
}

impl<S: RecordSource + Drop, R: RecordReader + Drop> Records<S, R> {
    /// Returns the records of a file that was not read yet. They are read into this buffer.
    pub fn new(source: S, reader: R, octets: Vec<u8>, selection: Selection) -> Records<S, R>
        ensures source { result.source ≡ source }
        ensures selection { result.selection ≡ selection }
        ensures counts { (result.counts.read ≡ 0) × (result.counts.chosen ≡ 0)
            × (result.counts.left ≡ 2 ^ 64 - 1) }
    {
        Records {
            source,
            reader,
            octets,
            counts: RecordCounts::begin(),
            selection,
        }
    }

    /// Returns the next record that is selected. Records that are not selected are skipped, and
    /// count as read. So is each part of the file without a record, except for the start of an
    /// interface, which is returned.
    ///
    /// `AllocError` if an allocation failed.
    ///
    /// - `next`: what is returned is of the first step of the file in which a record is selected,
    ///   an interface begins, or the file ends (`IsNext`). Each step before it is skipped
    ///   (`Skips`). Once as many records are selected as are wanted, no more is read.
    pub fn next_chosen(&mut self) -> Result<Pulled<R::Record>, AllocError>
        ensures next { IfOk result (IsNext S.GivesStep R.Reads self.old.selection self.old.source
            self.old.counts self.new.source self.new.octets.items self.new.counts) }
        ensures fewer { IfOk result (λ met. is_end met ≡ false →
            self.new.counts.left < self.old.counts.left) }
        ensures selection { self.new.selection ≡ self.old.selection }
    {
        if self.selection.count == Some(self.counts.chosen) {
            return Ok(Pulled::End(None));
        }
        loop {
            if self.counts.left == 0 {
                return Ok(Pulled::End(None));
            }
            if let Some(met) = self.step()? {
                return Ok(met);
            }
        }
    }

    /// Makes one step over the file. `None` for a part that is skipped.
    fn step(&mut self) -> Result<Option<Pulled<R::Record>>, AllocError>
        requires { 0 < self.old.counts.left }
        ensures step { IfOk result (IsStep S.GivesStep R.Reads self.old.selection self.old.source
            self.old.counts self.new.source self.new.octets.items self.new.counts) }
        ensures selection { self.new.selection ≡ self.old.selection }
    {
        self.counts = self.counts.after_step();
        match self.source.next_into(&mut self.octets) {
            Ok(Step::Record(head)) => self.read_record(head),
            Ok(Step::Interface) => Ok(Some(Pulled::Interface)),
            Ok(Step::Passed) => Ok(None),
            Ok(Step::End) => Ok(Some(Pulled::End(None))),
            Err(fault) => Ok(Some(Pulled::End(Some(fault)))),
        }
    }

    /// Reads the record whose octets are in the buffer.
    fn read_record(&mut self, head: RecordHeader) -> Result<Option<Pulled<R::Record>>, AllocError>
        requires { self.old.counts.read + self.old.counts.left < 2 ^ 64 - 1 }
        ensures meets { IfOk result (λ met. MeetsStep R.Reads self.old.selection
            self.old.octets.items (Ok (steps.Record head)) self.new.octets.items met) }
        ensures counts { IfOk result (λ met. (self.new.counts.read ≡ self.old.counts.read + 1)
            × (self.new.counts.chosen ≡ self.old.counts.chosen + chosen_of met)
            × (self.new.counts.left ≡ self.old.counts.left)) }
        ensures same { (self.new.source ≡ self.old.source)
            × (self.new.selection ≡ self.old.selection) }
    {
        let found = self.reader.read(&self.selection, &head, &mut self.octets)?;
        self.counts = self.counts.after_record(found.is_some());
        match found {
            Some(record) => Ok(Some(Pulled::Chosen(head, record))),
            None => Ok(None),
        }
    }
}
