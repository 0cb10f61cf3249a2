//! Devices of the caller's own: files of each format report a device that fails, and afterwards
//! that they failed. Failed calls are counted. Memory runs out while a file is read.

use crate::packet::vectors::RECORD;
use cap_pcap::{
    AnySink, AnySource, Format, PutFault, RecordSink, RecordSource, SourceFault, Stamp, Step,
};
use its_linkframe::{CaptureFault, Counted, Sink, Source};
use std::alloc::Global;
use std::io;
use std::io::{Read, Write};
use test_support::{MOST, STEP, Shortage};

/// Classic pcap, the highest octet first: a header, and a record of 3 octets.
static PCAP: [u8; 43] = *b"\xa1\xb2\xc3\xd4\0\x02\0\x04\0\0\0\0\0\0\0\0\0\0\xff\xff\0\0\0\x01\
    \0\0\0\x02\0\0\x1f\x3f\0\0\0\x03\0\0\0\x05abc";

/// pcapng, the lowest octet first: a section, an interface, and a packet of 3 octets.
static PCAPNG: [u8; 108] = *b"\x0a\x0d\x0d\x0a\x1c\0\0\0\x4d\x3c\x2b\x1a\x01\0\0\0\
    \xff\xff\xff\xff\xff\xff\xff\xff\x1c\0\0\0\
    \x01\0\0\0\x2c\0\0\0\x01\0\0\0\0\0\0\0\
    \x09\0\x01\0\x03\0\0\0\x0e\0\x08\0\xff\xff\xff\xff\xff\xff\xff\xff\0\0\0\0\x2c\0\0\0\
    \x06\0\0\0\x24\0\0\0\0\0\0\0\0\0\0\0\xe9\x03\0\0\
    \x03\0\0\0\x03\0\0\0abc\0\x24\0\0\0";

/// A device that returns one octet per call, and fails after this many calls.
#[derive(Drop)]
struct Slow<'a> {
    octets: &'a [u8],
    calls: u64,
}

impl Read for Slow<'_> {
    fn read(&mut self, buf: &mut [u8]) -> io::Result<usize> {
        if self.calls == 0 {
            return Err(io::Error::from(io::ErrorKind::Other));
        }
        self.calls -= 1;
        let n = buf.len().min(self.octets.len()).min(1);
        buf[..n].copy_from_slice(&self.octets[..n]);
        self.octets = &self.octets[n..];
        Ok(n)
    }
}

/// A device that takes one octet per call, and after this many calls none or returns an error.
#[derive(Drop)]
struct Slot {
    calls: u64,
    errs: bool,
}

impl Write for Slot {
    fn write(&mut self, buf: &[u8]) -> io::Result<usize> {
        if self.calls == 0 && self.errs {
            return Err(io::Error::from(io::ErrorKind::Other));
        }
        if self.calls == 0 || buf.is_empty() {
            return Ok(0);
        }
        self.calls -= 1;
        Ok(1)
    }

    fn flush(&mut self) -> io::Result<()> {
        Ok(())
    }
}

/// The result of a call for the next record of a file.
type Answer = Result<Step, SourceFault>;

/// Returns the results of eight calls for the next record. It has no contract, since otherwise the
/// proof of each test would carry all that the contracts of the calls say.
fn eight_of<S: RecordSource + Drop>(alloc: Global, mut source: S) -> [Answer; 8] {
    let mut frame = Vec::new(alloc);
    let mut answers = [Ok(Step::Passed); 8];
    for answer in &mut answers {
        *answer = source.next_into(&mut frame);
    }
    answers
}

/// The first end or fault, and the result after it.
fn end_of(answers: &[Answer; 8]) -> [Answer; 2] {
    for place in 0..7usize {
        match answers[place] {
            Ok(Step::Interface | Step::Passed | Step::Record(_)) => {}
            end => return [end, answers[place + 1]],
        }
    }
    [Ok(Step::Passed), answers[7]]
}

/// How a file of this format ends if its device fails after this many calls.
fn read_failing(alloc: Global, format: Format, octets: &[u8], calls: u64) -> [Answer; 2] {
    let device = Counted::new(Slow { octets, calls });
    match AnySource::open(alloc, device, Some(format), 2) {
        Ok(source) => end_of(&eight_of(alloc, source)),
        Err(_) => [Err(SourceFault::Capture(CaptureFault::Io)); 2],
    }
}

/// A device that fails is reported as C3 wherever it fails, and as C5 from then on.
#[test]
fn a_failing_source_is_told_at_each_octet(rt: HostRuntime) {
    let want = [
        Err(SourceFault::Capture(CaptureFault::Io)),
        Err(SourceFault::Capture(CaptureFault::Failed)),
    ];
    for (format, octets) in [
        (Format::Capture, RECORD.as_slice()),
        (Format::Pcap, &PCAP),
        (Format::Pcapng, &PCAPNG),
    ] {
        for calls in 0..octets.len() {
            let found = read_failing(rt.alloc(), format, octets, calls as u64);
            assert!(rt; found == want, "{calls}");
        }
    }
}

/// Whether the pcapng file is read to its end. `false` if memory ran out, and `None` for any other
/// result.
fn is_read(alloc: Global) -> Option<bool> {
    match read_failing(alloc, Format::Pcapng, &PCAPNG, u64::MAX)[0] {
        Ok(Step::End) => Some(true),
        Err(SourceFault::Capture(CaptureFault::NoMemory)) => Some(false),
        Ok(_) | Err(_) => None,
    }
}

/// Whether it is read under some budgets, and memory runs out under others. `None` for any other
/// result, or if a budget could not be left.
fn read_short_of_memory(alloc: Global) -> Option<[bool; 2]> {
    let mut shortage = Shortage::new(alloc).ok()?;
    let mut was = [false; 2];
    for step in 0..200 {
        if !shortage.leave((step * STEP).min(MOST)) {
            return None;
        }
        let is_read = is_read(alloc)?;
        was[0] |= is_read;
        was[1] |= !is_read;
    }
    Some(was)
}

/// Each allocation that fails is reported as C4, for the list of interfaces and for a frame.
#[test]
fn memory_that_ends_is_told(rt: HostRuntime) {
    assert!(rt; read_short_of_memory(rt.alloc()) == Some([true, true]));
}

/// The results of a sink for a start, an interface and a frame, up to the first fault.
fn write_file<S: RecordSink>(sink: &mut S, name: &str, frame: &[u8]) -> Result<(), PutFault> {
    sink.start()?;
    sink.add_interface(name)?;
    sink.put_frame(0, Stamp::of_millis(5), frame)
}

/// The results of a file in this format, and of one more frame, on a device that takes this many
/// octets.
fn write_failing(format: Format, calls: u64, errs: bool) -> [Result<(), PutFault>; 2] {
    let mut sink = AnySink::new(Counted::new(Slot { calls, errs }), format);
    [
        write_file(&mut sink, "station 0", b"xyz"),
        sink.put_frame(0, Stamp::of_millis(5), b"xyz"),
    ]
}

/// A device that is full at any octet is reported, if it returns an error and if it takes nothing.
/// From then on the file returns that it failed.
#[test]
fn a_full_device_is_told_at_each_octet(rt: HostRuntime) {
    for (format, size) in [
        (Format::Capture, 13),
        (Format::Pcap, 43),
        (Format::Pcapng, 112),
    ] {
        for room in 0..=size {
            let want = if room == size {
                [Ok(()), Err(PutFault::Io)]
            } else {
                [Err(PutFault::Io), Err(PutFault::Failed)]
            };
            for errs in [false, true] {
                assert!(rt; write_failing(format, room, errs) == want, "{room}");
            }
        }
    }
}

/// The result of a frame of this many octets in a pcapng file, with an interface without a name or
/// without an interface.
fn write_long(alloc: Global, size: usize, has_interface: bool) -> Option<Result<(), PutFault>> {
    let frame = Vec::from_elem(alloc, 7, size).ok()?;
    let device = Slot {
        calls: u64::MAX,
        errs: true,
    };
    let mut sink = AnySink::new(Counted::new(device), Format::Pcapng);
    Some(if has_interface {
        write_file(&mut sink, "", &frame)
    } else {
        sink.put_frame(0, Stamp::of_millis(5), &frame)
    })
}

/// A frame without an interface isn't written, nor one of more than 262144 octets.
#[test]
fn frames_without_a_place(rt: HostRuntime) {
    for (size, has_interface, want) in [
        (3, false, Err(PutFault::Interface)),
        (262_145, true, Err(PutFault::Length)),
        (262_144, true, Ok(())),
    ] {
        assert!(rt;
            write_long(rt.alloc(), size, has_interface) == Some(want),
            "{size}"
        );
    }
}

/// `failures` returns the number of failed calls of a reader and of a writer, from 0 on.
#[test]
fn failures_are_counted(rt: HostRuntime) {
    let octets = b"abc".as_slice();
    let mut source = Counted::new(Slow { octets, calls: 1 });
    let mut sink = Counted::new(Slot {
        calls: 1,
        errs: false,
    });
    for (read, written, failures) in [
        (Some(1), Some(1), 0),
        (None, Some(0), 1),
        (None, Some(0), 2),
    ] {
        let found = (source.read(&mut [0; 4]).ok(), sink.write(&[7]).ok());
        assert!(rt; found == (read, written));
        assert!(rt; (Source::failures(&source), Sink::failures(&sink)) == (failures, failures));
    }
}
