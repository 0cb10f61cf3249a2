//! The files that commands read and write. The name `-` is that of standard input or output.

ghost use Rattle.std.specs.Prelude.{◌≡◌, IsOk, true};
ghost use Rattle.cmd_reporting.specs.FileNames.{is_standard as names_standard};

use crate::fault::Fault;
use crate::named_file::{NamedFile, refuse_same};
use crate::outputs::{OutputFault, is_standard};
use std::alloc::AllocError;
use std::io::{BufReader, BufWriter, Read, Write};
use std::rt::Files;
use std::{fs, io};

/// How many octets of a file are read or written at a time.
const FILE_BUFFER: usize = 32 * 1024;

/// The system's number of the error for reading a folder.
const IS_A_FOLDER: i32 = 21;

/// What a command reads.
#[derive(Drop)]
pub enum Opened<F, I> {
    /// The file that was named.
    File(F),
    /// Standard input.
    Standard(I),
}

impl<F: Read, I: Read> Read for Opened<F, I> {
    fn read(&mut self, buf: &mut [u8]) -> io::Result<usize> {
        match self {
            Opened::File(file) => file.read(buf),
            Opened::Standard(input) => input.read(buf),
        }
    }
}

/// What a command writes to.
#[derive(Drop)]
pub enum Destination<F, W> {
    /// The file that was named.
    File(F),
    /// Standard output.
    Standard(W),
}

impl<F: Write, W: Write> Write for Destination<F, W> {
    fn write(&mut self, octets: &[u8]) -> io::Result<usize> {
        match self {
            Destination::File(file) => file.write(octets),
            Destination::Standard(out) => out.write(octets),
        }
    }

    fn flush(&mut self) -> io::Result<()> {
        match self {
            Destination::File(file) => file.flush(),
            Destination::Standard(out) => out.flush(),
        }
    }
}

/// Refuses the file to write if it is the one that is read. Standard output never is.
pub fn keep_apart<'a, R: Files>(
    rt: &R,
    written: &'a str,
    read: &'a str,
) -> Result<(), OutputFault<'a>>
    ensures { names_standard written.entry.now ≡ true → IsOk result }
{
    if is_standard(written) {
        return Ok(());
    }
    refuse_same(&[NamedFile::of(rt, written)], &[NamedFile::of(rt, read)])
}

/// Opens a file for reading, with a buffer. `input` is standard input. `NotRead` or `CannotRead` if
/// it can't be opened, `OutOfMemory` if an allocation failed.
pub fn open<'a, R: Files + AllocGlobal, I: Read + Drop>(
    rt: &R,
    file: &'a str,
    input: I,
) -> Result<BufReader<Opened<R::File, I>>, Fault<'a>>
where
    R::File: Read + Drop,
{
    match named(rt, file, input) {
        Ok(opened) => {
            BufReader::with_capacity(rt.alloc(), FILE_BUFFER, opened).map_err(
                |_| Fault::OutOfMemory(AllocError),
            )
        }
        Err(error) => Err(Fault::of_read(&error, file)),
    }
}

/// Opens the file with this name, or standard input, for reading. A folder is refused here, and not
/// at its first read, so that the system's reason is known.
fn named<R: Files, I: Read + Drop>(rt: &R, file: &str, input: I) -> io::Result<Opened<R::File, I>>
where
    R::File: Read + Drop,
{
    if is_standard(file) {
        return Ok(Opened::Standard(input));
    }
    let opened = fs::open(rt, file)?;
    if fs::metadata(rt, file).is_ok_and(|found| found.is_dir()) {
        return Err(io::Error::from_raw_os_error(IS_A_FOLDER));
    }
    Ok(Opened::File(opened))
}

/// Creates a file, with a buffer. `NotWritten` or `CannotWrite` if it can't be created,
/// `OutOfMemory` if an allocation failed.
pub fn create<'a, R: Files + AllocGlobal>(
    rt: &R,
    file: &'a str,
) -> Result<BufWriter<R::File>, Fault<'a>>
where
    R::File: Write + Drop,
{
    match fs::create(rt, file) {
        Ok(created) => {
            BufWriter::with_capacity(rt.alloc(), FILE_BUFFER, created).map_err(
                |_| Fault::OutOfMemory(AllocError),
            )
        }
        Err(error) => Err(Fault::of_write(&error, file)),
    }
}

/// Creates the file of this name, with a buffer, or returns standard output, `out`, if the name is
/// `-`. The errors are those of `create`.
pub fn create_output<'a, R: Files + AllocGlobal, W: Write + Drop>(
    rt: &R,
    file: &'a str,
    out: W,
) -> Result<Destination<BufWriter<R::File>, W>, Fault<'a>>
where
    R::File: Write + Drop,
{
    if is_standard(file) {
        return Ok(Destination::Standard(out));
    }
    Ok(Destination::File(create(rt, file)?))
}
