//! Reading a pcapng file.

ghost use Rattle.std.specs.Prelude.{◌≡◌, ◌≢◌, ◌-◌, ◌+◌, ◌^◌, ◌<◌, ◌≤◌, [], if◌then◌else◌};
ghost use Rattle.std.specs.Prelude.{Err, vec_capacity};
ghost use Rattle.cap_pcap.specs.Layouts.{IsAnswerOrEnd};
ghost use Rattle.cap_pcap.specs.Pcapng.{kind_of_next, next_block, IsAnswer, IsTaken};
ghost use Rattle.cap_pcap.specs.Pcapng.{ReadsInterfaceAt, newest_in};
ghost use Rattle.cap_pcap.specs.Reading.{is_io};
ghost use Rattle.cap_pcap.specs.declared.pcapng.Stage.TheVariants as stages;
ghost use Rattle.its_linkframe.specs.declared.record.CaptureFault.TheVariants as captures;
ghost use Rattle.cap_pcap.specs.declared.fault.SourceFault.TheVariants as faults;

use crate::blocks::{Block, Kind, kind_of, read_block};
use crate::fault::SourceFault;
use crate::info::InterfaceInfo;
use crate::interface::Interface;
use crate::octets::{Endianness, u32_at};
use crate::record::Step;
use its_linkframe::{CaptureFault, Source, fill};
use std::alloc::Global;
use std::marker::Model;

/// The octets of a block's type.
const TYPE: usize = 4;

/// The position of a reader in the file.
#[derive(Clone, Copy, Debug, PartialEq, Eq)]
enum Stage {
    /// At the first block.
    Start,
    /// At a block of a section, or at the end.
    Blocks(Endianness),
    /// The end was reached. It is returned again.
    Ended,
    /// A fault was returned. Each further call returns C5.
    Failed,
}

/// Reads the records of a pcapng file, in order, from a source that returns its octets in pieces of
/// any size. It keeps a list of the interfaces of a section, and as much of a record as it was
/// asked for.
#[derive(Drop)]
pub struct PcapngReader<R: Source> {
    source: R,
    keep: usize,
    stage: Stage,
    interfaces: Vec<Interface>,
    /// How many interfaces the file had so far, in all its sections.
    next: u32,
}

impl<R: Source> Model for PcapngReader<R> {
    ghost use Rattle.std.specs.Prelude.{◌≡◌, ◌-◌, ◌^◌, ◌<◌, false};
    ghost use Rattle.cap_pcap.specs.Pcapng.{PcapngReading, is_failed};

    ghost Value = { PcapngReading };

    ghost view = { λ r. record {
      stage = r.stage;
      interfaces = r.interfaces.items;
      next = r.next;
      keep = r.keep;
      rest = R.remaining r.source;
      failures = R.failed r.source;
    } };

    ghost invariant = { λ r. is_failed r.stage ≡ false → R.failed r.source < 2 ^ 64 - 1 };
}

impl<R: Source> PcapngReader<R> {
    /// Returns a reader at the start of a file. It keeps at most the first `keep` octets of a
    /// frame, and allocates memory for interfaces from `alloc`.
    pub fn new(alloc: Global, source: R, keep: usize) -> PcapngReader<R>
        requires { R.failed source < 2 ^ 64 - 1 }
        ensures { result ≡ record {
          stage = stages.Start;
          interfaces = [];
          next = 0;
          keep = keep;
          rest = R.remaining source;
          failures = R.failed source;
        } }
    {
        PcapngReader {
            source,
            keep,
            stage: Stage::Start,
            interfaces: Vec::new(alloc),
            next: 0,
        }
    }

    /// Returns the next step. Each call reads one block. It returns a record, whose octets replace
    /// those in the buffer, `Interface` for an interface block, `Passed` for any other block, or
    /// the end.
    ///
    /// A field is checked before any octet after it is read. After a fault each call returns C5. If
    /// the capacity of the buffer is at least `keep`, only an interface block can return C4.
    pub fn next_into(&mut self, frame: &mut Vec<u8>) -> Result<Step, SourceFault>
        ensures answer { IsAnswer self.old self.new frame.new.items result }
        ensures counts { self.new.failures ≡ self.old.failures + (if is_io result then 1 else 0) }
        ensures keep { self.new.keep ≡ self.old.keep }
        ensures memory { self.old.keep ≤ vec_capacity frame.old
            → result ≡ Err (faults.Capture captures.NoMemory)
            → ReadsInterfaceAt self.old.stage self.old self.new }
    {
        let order = match self.stage {
            Stage::Start => None,
            Stage::Blocks(order) => Some(order),
            Stage::Ended => return Ok(Step::End),
            Stage::Failed => return Err(SourceFault::Capture(CaptureFault::Failed)),
        };
        match read_next(
            &mut self.source,
            order,
            self.next,
            self.interfaces.as_slice(),
            self.keep,
            frame,
        ) {
            Ok(Some(block)) => take(block, &mut self.stage, &mut self.next, &mut self.interfaces),
            Ok(None) => {
                self.stage = Stage::Ended;
                Ok(Step::End)
            }
            Err(fault) => {
                self.stage = Stage::Failed;
                Err(fault)
            }
        }
    }

    /// Returns what the last interface block of the section says, if there was one.
    pub fn newest(&self) -> Option<InterfaceInfo>
        ensures { result ≡ newest_in self.now.interfaces }
    {
        match self.interfaces.as_slice().last() {
            Some(interface) => Some(interface.info),
            None => None,
        }
    }

    /// Returns the source, with the octets that were not read.
    pub fn into_inner(self) -> R
        ensures rest { R.remaining result ≡ self.rest }
        ensures failures { R.failed result ≡ self.failures }
    {
        self.source
    }
}

/// Reads the next block, in a section of this byte order with these interfaces. Returns `None` at
/// the end of the file. The first block of a file is in no section. `next` is the number that a
/// further interface gets.
fn read_next<S: Source>(
    source: &mut S,
    order: Option<Endianness>,
    next: u32,
    interfaces: &[Interface],
    keep: usize,
    frame: &mut Vec<u8>,
) -> Result<Option<Block>, SourceFault>
    requires { S.failed source.old < 2 ^ 64 - 1 }
    ensures answer { IsAnswerOrEnd (next_block order next interfaces.now keep frame.new.items)
        (S.remaining source.old) (S.remaining source.new) result }
    ensures counts { S.failed source.new ≡ S.failed source.old + (if is_io result then 1 else 0) }
    ensures memory { keep ≤ vec_capacity frame.old
        → result ≢ Err (faults.Capture captures.NoMemory) }
{
    let Some(kind) = read_kind(source, order)? else {
        return Ok(None);
    };
    let in_order = order.unwrap_or(Endianness::Big);
    let block = read_block(source, kind, in_order, next, interfaces, keep, frame)?;
    Ok(Some(block))
}

/// Returns the kind of the next block, by its type, or `None` at the end of the file. P2 if the
/// first block of a file is not a section header.
fn read_kind<S: Source>(
    source: &mut S,
    order: Option<Endianness>,
) -> Result<Option<Kind>, SourceFault>
    requires { S.failed source.old < 2 ^ 64 - 1 }
    ensures answer { IsAnswerOrEnd (kind_of_next order) (S.remaining source.old)
        (S.remaining source.new) result }
    ensures counts { S.failed source.new ≡ S.failed source.old + (if is_io result then 1 else 0) }
    ensures memory { result ≢ Err (faults.Capture captures.NoMemory) }
{
    let mut octets = [0; TYPE];
    match fill(source, &mut octets) {
        None => return Err(SourceFault::Capture(CaptureFault::Io)),
        Some(0) => return Ok(None),
        Some(n) if n < TYPE => return Err(SourceFault::CutFile),
        Some(_) => {}
    }
    let kind = kind_of(u32_at(order.unwrap_or(Endianness::Big), &octets, 0));
    if order.is_none() && kind != Kind::Section {
        return Err(SourceFault::Malformed);
    }
    Ok(Some(kind))
}

/// Returns the step of a block, and updates the stage, the count of interfaces and the list of the
/// section's interfaces. C4 if that list can't grow.
fn take(
    block: Block,
    stage: &mut Stage,
    next: &mut u32,
    interfaces: &mut Vec<Interface>,
) -> Result<Step, SourceFault>
    ensures { IsTaken block stage.old stage.new next.old next.new interfaces.old.items
        interfaces.new.items result }
{
    match block {
        Block::Section(order) => {
            interfaces.clear();
            *stage = Stage::Blocks(order);
            Ok(Step::Passed)
        }
        Block::Interface(interface) => match interfaces.push(interface) {
            Ok(()) => {
                // No file has so many interfaces: they take 20 octets each, and memory.
                *next = next.saturating_add(1);
                Ok(Step::Interface)
            }
            Err(_) => {
                *stage = Stage::Failed;
                Err(SourceFault::Capture(CaptureFault::NoMemory))
            }
        },
        Block::Record(head) => Ok(Step::Record(head)),
        Block::Other => Ok(Step::Passed),
    }
}
