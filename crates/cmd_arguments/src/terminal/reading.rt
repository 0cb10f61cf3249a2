//! The runtime of a command that shows its progress in reading a file.

ghost use Rattle.std.specs.Prelude.{◌≡◌, Some, None, if◌then◌else◌};

use crate::terminal::meter::millis;
use crate::terminal::pace::Pace;
use std::alloc::{Allocator, Global};
use std::fs::{Files, Metadata, OpenFile, OpenOptions};
use std::io::{Eprint, Read, Seek, SeekFrom, Write};
use std::rt::Clock;
use std::time::Duration;
use std::{fmt, io};

/// The milliseconds between two lines of progress, and before the first.
const BETWEEN: u64 = 250;

/// A runtime that shows the progress of reading one file on standard error, if that is a terminal.
#[derive(Drop)]
pub struct ShownReading<'a, R> {
    rt: &'a R,
    /// The name of the file. `None` if no progress is shown.
    file: Option<&'a str>,
}

impl<'a, R> ShownReading<'a, R> {
    /// Returns a runtime that shows the progress of reading the file with this name, if `is_shown`.
    pub fn of(rt: &'a R, file: &'a str, is_shown: bool) -> ShownReading<'a, R>
        ensures { result.file ≡ if is_shown then Some file.entry else None }
    {
        ShownReading {
            rt,
            file: is_shown.then_some(file),
        }
    }
}

/// The progress of reading a file.
#[derive(Clone, Copy, Debug)]
struct Far {
    /// How many octets were read.
    done: u64,
    /// How many octets the file has.
    size: u64,
    started: Duration,
    /// The milliseconds after which a line was last written. 0 before the first line.
    shown_at: u64,
}

impl fmt::Display for Far {
    fn fmt<W: fmt::Write>(&self, f: &mut fmt::Formatter<W>) -> fmt::Result {
        write!(f, "{} of {} octets", self.done, self.size)?;
        let pace = Pace {
            done: self.done,
            all: self.size,
            elapsed: self.shown_at,
        };
        if let (Some(rate), Some(left)) = (pace.rate(), pace.left()) {
            write!(f, ", {} kB/s, {} s left", rate / 1000, left / 1000)?;
        }
        f.write_str("\x1b[K\r")
    }
}

/// A file, and the progress of reading it.
#[derive(Drop)]
pub struct ReadFile<'a, R, F: Drop> {
    rt: &'a R,
    file: F,
    far: Option<Far>,
}

impl<R: Eprint + Clock, F: Drop> ReadFile<'_, R, F> {
    /// Counts this number of octets more, and writes the line from time to time. At the end of the
    /// file, with 0 octets, it removes the line. A line that can't be written is ignored.
    fn note(&mut self, count: usize) {
        let Some(far) = self.far else {
            return;
        };
        if count == 0 {
            if far.shown_at > 0 {
                let _ = self.rt.eprint("\x1b[K");
            }
            self.far = None;
            return;
        }
        let elapsed = match self.rt.monotonic() {
            Ok(now) => millis(now.saturating_sub(far.started)),
            Err(_) => 0,
        };
        let is_due = elapsed.saturating_sub(far.shown_at) >= BETWEEN;
        let far = Far {
            done: far.done.saturating_add(count as u64),
            shown_at: if is_due { elapsed } else { far.shown_at },
            ..far
        };
        if is_due {
            let _ = self.rt.eprint(far);
        }
        self.far = Some(far);
    }
}

impl<R: Eprint + Clock, F: Read + Drop> Read for ReadFile<'_, R, F> {
    fn read(&mut self, octets: &mut [u8]) -> io::Result<usize> {
        let count = self.file.read(octets)?;
        self.note(count);
        Ok(count)
    }
}

impl<R, F: Write + Drop> Write for ReadFile<'_, R, F> {
    fn write(&mut self, octets: &[u8]) -> io::Result<usize> {
        self.file.write(octets)
    }

    fn flush(&mut self) -> io::Result<()> {
        self.file.flush()
    }
}

impl<R, F: Seek + Drop> Seek for ReadFile<'_, R, F> {
    fn seek(&mut self, to: SeekFrom) -> io::Result<u64> {
        self.file.seek(to)
    }
}

impl<R, F: OpenFile + Drop> OpenFile for ReadFile<'_, R, F> {
    fn metadata(&self) -> io::Result<Metadata> {
        self.file.metadata()
    }

    fn set_len(&self, size: u64) -> io::Result<()> {
        self.file.set_len(size)
    }

    fn sync_all(&self) -> io::Result<()> {
        self.file.sync_all()
    }

    fn sync_data(&self) -> io::Result<()> {
        self.file.sync_data()
    }
}

impl<R: AllocGlobal> Alloc for ShownReading<'_, R> {
    type A = Global;

    fn alloc(&self) -> Global {
        self.rt.alloc()
    }
}

impl<'a, R: Files + Eprint + Clock> Files for ShownReading<'a, R> {
    type File = ReadFile<'a, R, R::File>;

    type Dir = R::Dir;

    fn open_file(&self, how: &OpenOptions, path: &str) -> io::Result<Self::File> {
        let rt = self.rt;
        let file = rt.open_file(how, path)?;
        let far = match (self.file, rt.monotonic(), file.metadata()) {
            (Some(name), Ok(started), Ok(found)) if name == path && found.is_file() => Some(Far {
                done: 0,
                size: found.len(),
                started,
                shown_at: 0,
            }),
            _ => None,
        };
        Ok(ReadFile { rt, file, far })
    }

    fn open_dir(&self, path: &str) -> io::Result<R::Dir> {
        self.rt.open_dir(path)
    }

    fn metadata(&self, path: &str) -> io::Result<Metadata> {
        self.rt.metadata(path)
    }

    fn symlink_metadata(&self, path: &str) -> io::Result<Metadata> {
        self.rt.symlink_metadata(path)
    }

    fn copy(&self, from: &str, to: &str) -> io::Result<u64> {
        self.rt.copy(from, to)
    }

    fn rename(&self, from: &str, to: &str) -> io::Result<()> {
        self.rt.rename(from, to)
    }

    fn remove_file(&self, path: &str) -> io::Result<()> {
        self.rt.remove_file(path)
    }

    fn create_dir(&self, path: &str) -> io::Result<()> {
        self.rt.create_dir(path)
    }

    fn remove_dir(&self, path: &str) -> io::Result<()> {
        self.rt.remove_dir(path)
    }

    fn remove_dir_all<B: Allocator>(&self, alloc: B, path: &str) -> io::Result<()> {
        self.rt.remove_dir_all(alloc, path)
    }
}
