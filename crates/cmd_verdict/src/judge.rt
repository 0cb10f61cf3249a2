//! The verdicts on the records of a capture, in the order of the records.

use crate::case::Case;
use crate::forwarded_cases::forwarded_cases;
use crate::frame_cases::form_case;
use crate::owed_case::owed_case_of;
use crate::own_cases::own_cases;
use crate::reporter::CaseSink;
use cap_tap::{Arrivals, CaptureTimes, Repeats, SeenRecord, Tap, Waiting, WaitingFrames};
use cmd_reporting::Fault;
use its_duties::{Claims, Role, doubt_between};
use std::alloc::{AllocError, Global};

/// Judges the records of a capture.
#[derive(Drop)]
pub(crate) struct Judge {
    arrivals: Arrivals,
    repeats: Repeats,
    tap: Tap,
    waiting: WaitingFrames,
    /// The first stamp.
    begin: Option<u64>,
    /// The greatest stamp so far.
    end: u64,
    /// How many records are repeats of the link.
    pub(crate) repeated: u64,
    /// How many frames of other types the station sent.
    pub(crate) others: u64,
}

impl Judge {
    /// No record yet.
    pub(crate) fn new(alloc: Global, claims: &Claims) -> Judge {
        Judge {
            arrivals: Arrivals::new(alloc, claims),
            repeats: Repeats::new(alloc),
            tap: Tap::new(alloc, claims),
            waiting: WaitingFrames::new(alloc),
            begin: None,
            end: 0,
            repeated: 0,
            others: 0,
        }
    }

    /// Whether a record may come next, by its stamp.
    pub(crate) fn is_in_order(&self, stamp: u64) -> bool {
        self.arrivals.is_in_order(stamp)
    }

    /// Takes the next record of the file, and passes on each verdict that is known then.
    pub(crate) fn take<'f, S: CaseSink>(
        &mut self,
        record: SeenRecord,
        sink: &mut S,
    ) -> Result<(), Fault<'f>> {
        self.arrivals.add(record)?;
        for _ in 0..self.arrivals.count() {
            match self.next_arrival() {
                Some(record) => self.meet(record, sink)?,
                None => return Ok(()),
            }
        }
        Ok(())
    }

    /// The next record: one that no other can come before, or the first if too many wait.
    fn next_arrival(&mut self) -> Option<SeenRecord> {
        if let Some(record) = self.arrivals.take() {
            return Some(record);
        }
        if !self.arrivals.is_over() {
            return None;
        }
        let record = self.arrivals.take_first()?;
        self.tap.lose(record.stamp);
        Some(record)
    }

    /// Ends the capture, and passes on the verdicts that are left.
    pub(crate) fn end<'f, S: CaseSink>(&mut self, sink: &mut S) -> Result<(), Fault<'f>> {
        for _ in 0..self.arrivals.count() {
            if let Some(record) = self.arrivals.take_first() {
                self.meet(record, sink)?;
            }
        }
        for _ in 0..self.waiting.count() {
            if let Some(waiting) = self.waiting.take_first() {
                self.judge(&waiting, sink)?;
            }
        }
        Ok(())
    }

    /// Meets the next record by its stamp.
    fn meet<'f, S: CaseSink>(&mut self, record: SeenRecord, sink: &mut S) -> Result<(), Fault<'f>> {
        let stamp = record.stamp;
        self.end = self.end.max(stamp);
        if self.begin.is_none() {
            self.begin = Some(stamp);
            sink.begin(stamp);
        }
        self.judge_due(stamp, sink)?;
        self.keep(record)?;
        self.make_room(sink)
    }

    /// Keeps what later records are judged by, and the record if it is judged itself.
    fn keep(&mut self, record: SeenRecord) -> Result<(), AllocError> {
        if self.is_repeat(&record)? {
            self.repeated = self.repeated.saturating_add(1);
            return Ok(());
        }
        self.repeats.note(&record, record.number)?;
        let settled = self.settled(record.stamp);
        let met = self.tap.add(&record, settled)?;
        if matches!(met.role, Role::SentOther) {
            self.others = self.others.saturating_add(1);
        }
        if met.is_judged() {
            self.waiting.add(Waiting { record, met })?;
        }
        Ok(())
    }

    /// Whether a record is a repeat of the link. It is noted with its first sending then.
    fn is_repeat(&mut self, record: &SeenRecord) -> Result<bool, AllocError> {
        if !record.is_retry() {
            return Ok(false);
        }
        let Some(first) = self.repeats.first_of(record) else {
            return self.arrivals.note_repeat(record);
        };
        self.repeats.note(record, first)?;
        let settled = self.settled(record.stamp);
        if self.tap.add_repeat(record, first, settled)? {
            self.waiting.repeat(first, record.stamp)?;
        }
        Ok(true)
    }

    /// The first stamp of a record that may still be judged, once a record of this stamp is met.
    fn settled(&self, stamp: u64) -> u64 {
        self.waiting.first_stamp().unwrap_or(stamp).min(stamp)
    }

    /// Judges the first records that wait, if too many do.
    fn make_room<'f, S: CaseSink>(&mut self, sink: &mut S) -> Result<(), Fault<'f>> {
        for _ in 0..self.waiting.count() {
            if !self.waiting.is_over() {
                return Ok(());
            }
            if let Some(waiting) = self.waiting.take_first() {
                self.tap.lose(waiting.record.stamp);
                self.judge(&waiting, sink)?;
            }
        }
        Ok(())
    }

    /// Judges the records that the capture has all for, up to the stamp of the next record.
    fn judge_due<'f, S: CaseSink>(&mut self, stamp: u64, sink: &mut S) -> Result<(), Fault<'f>> {
        for _ in 0..self.waiting.count() {
            match self.waiting.take_due(&self.tap.claims, stamp) {
                Some(waiting) => self.judge(&waiting, sink)?,
                None => return Ok(()),
            }
        }
        Ok(())
    }

    /// Judges a record that the station sent, or a packet for an area that it may have received.
    fn judge<'f, S: CaseSink>(&mut self, waiting: &Waiting, sink: &mut S) -> Result<(), Fault<'f>> {
        let record = &waiting.record;
        self.report_verdicts(waiting, sink)?;
        let doubt = doubt_between(&self.tap.claims);
        self.tap
            .own
            .forget_resets(record.stamp.saturating_sub(doubt));
        Ok(())
    }

    /// Passes on the verdicts on a record.
    fn report_verdicts<'f, S: CaseSink>(
        &self,
        waiting: &Waiting,
        sink: &mut S,
    ) -> Result<(), Fault<'f>> {
        let (tap, record) = (&self.tap, &waiting.record);
        let times = self.times();
        match (waiting.met.role, &record.frame()) {
            (Role::Own, Ok(frame)) => {
                let cases = own_cases(tap, waiting, frame);
                report_cases(record, cases.as_slice(), sink)
            }
            (Role::Forwarded, Ok(frame)) => {
                let cases = forwarded_cases(tap, record, frame, times.begin)?;
                report_cases(record, cases.as_slice(), sink)
            }
            (Role::Heard, Ok(frame)) => match owed_case_of(tap, waiting, frame, times) {
                Some(case) => sink.put(record, case),
                None => Ok(()),
            },
            _ => sink.put(record, form_case(&tap.claims, record)),
        }
    }

    /// When the capture begins, and up to when it is complete.
    fn times(&self) -> CaptureTimes {
        let end = match self.tap.claims.until {
            Some(until) => until.saturating_mul(1_000_000),
            None => self.end,
        };
        CaptureTimes {
            begin: self.begin.unwrap_or(0),
            end,
        }
    }
}

/// Passes on the verdicts on a record, in their order.
fn report_cases<'f, S: CaseSink>(
    record: &SeenRecord,
    cases: &[Option<Case>],
    sink: &mut S,
) -> Result<(), Fault<'f>> {
    for case in cases.iter().flatten() {
        sink.put(record, *case)?;
    }
    Ok(())
}
