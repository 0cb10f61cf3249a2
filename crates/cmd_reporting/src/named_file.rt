//! Which names stand for one and the same file.

ghost use Rattle.std.specs.Prelude.{◌≡◌, OnErr, OnOk};
ghost use Rattle.cmd_reporting.specs.NamedFiles.{AreApart, IsClash, has_file, same_file};
ghost use Rattle.cmd_reporting.specs.NamedFiles.{same_identity, same_inode};

use crate::outputs::{OutputFault, is_standard};
use std::fs;
use std::os::unix::fs::MetadataExt;
use std::rt::Files;

/// The number of a file or folder, and the device that it is on.
#[derive(Clone, Copy, Debug)]
struct Inode {
    device: u64,
    inode: u64,
}

impl Inode {
    /// Whether these are the same file.
    fn is(self, other: Inode) -> bool
        ensures { result ≡ same_inode self other }
    {
        self.device == other.device && self.inode == other.inode
    }

    /// Returns the number in what the system says of a file. `None` if it has no such numbers.
    fn of<M: MetadataExt>(metadata: &M) -> Option<Inode> {
        (metadata.ino() != 0).then_some(Inode {
            device: metadata.dev(),
            inode: metadata.ino(),
        })
    }
}

/// What tells a file from all others of the system, whatever its name.
#[derive(Clone, Copy, Debug)]
enum Identity<'a> {
    /// A regular file that exists.
    Existing(Inode),
    /// A file that does not exist yet: its folder, and the last part of its name.
    New(Inode, &'a str),
}

impl Identity<'_> {
    /// Whether these are the same file.
    fn is(&self, other: &Identity<'_>) -> bool
        ensures { result ≡ same_identity self.now other.now }
    {
        match (self, other) {
            (Identity::Existing(a), Identity::Existing(b)) => a.is(*b),
            (Identity::New(a, name), Identity::New(b, other)) => a.is(*b) && name == other,
            _ => false,
        }
    }
}

/// A file that a command reads or writes, by the name that it was given.
#[derive(Clone, Copy, Debug)]
pub struct NamedFile<'a> {
    name: &'a str,
    /// `None` for standard input and output, for a file that is not regular, and for one whose
    /// folder does not exist: these are the same as no other.
    identity: Option<Identity<'a>>,
}

impl<'a> NamedFile<'a> {
    /// Returns the file of this name, as the system has it now. A link is the file that it leads to.
    pub fn of<R: Files>(rt: &R, name: &'a str) -> NamedFile<'a>
        ensures { result.name ≡ name.entry }
    {
        NamedFile {
            name,
            identity: identity_of(rt, name),
        }
    }

    /// Whether these are the same file.
    fn is(&self, other: &NamedFile<'_>) -> bool
        ensures { result ≡ same_file self.now other.now }
    {
        match (&self.identity, &other.identity) {
            (Some(identity), Some(other)) => identity.is(other),
            _ => false,
        }
    }
}

/// Returns what tells the file of this name from all others.
fn identity_of<'a, R: Files>(rt: &R, name: &'a str) -> Option<Identity<'a>> {
    if is_standard(name) {
        return None;
    }
    match fs::metadata(rt, name) {
        Ok(metadata) if metadata.is_file() => Some(Identity::Existing(Inode::of(&metadata)?)),
        Ok(_) => None,
        Err(_) => {
            let (folder, last) = split_name(name);
            let metadata = fs::metadata(rt, folder).ok()?;
            Some(Identity::New(Inode::of(&metadata)?, last))
        }
    }
}

/// Splits a name into its folder and its last part.
fn split_name(name: &str) -> (&str, &str) {
    match name.rsplit_once('/') {
        Some(("", last)) => ("/", last),
        Some(parts) => parts,
        None => (".", name),
    }
}

/// Whether one of these files is this one.
fn is_among(file: &NamedFile<'_>, others: &[NamedFile<'_>]) -> bool
    ensures { result ≡ has_file others.now file.now }
{
    others.iter().any(|other| other.is(file))
}

/// The fault that a file is one of these others. It names the first one that it is.
fn same_as<'a>(file: &NamedFile<'a>, others: &[NamedFile<'a>]) -> OutputFault<'a> {
    let same = others.iter().find(|other| other.is(file));
    OutputFault::SameFile(file.name, same.unwrap_or(file).name)
}

/// Refuses the first file to be written that is one of those that are read, or one of those to be
/// written before it, whatever their names are. Files that do not exist are the same if they have
/// the same folder and the same last part. Standard input and output are the same as no file, and
/// neither are files that are not regular, for example `/dev/null`.
///
/// - `apart`, `clash`: it succeeds only if no file to be written is one of those that are read or
///   another one to be written; the one that it names is the first that is.
pub fn refuse_same<'a>(
    written: &[NamedFile<'a>],
    read: &[NamedFile<'a>],
) -> Result<(), OutputFault<'a>>
    ensures apart { OnOk result (AreApart written.now read.now) }
    ensures clash { OnErr result (IsClash written.now read.now) }
{
    for place in 0..written.len() {
        let file = &written[place];
        if is_among(file, read) {
            return Err(same_as(file, read));
        }
        if is_among(file, &written[..place]) {
            return Err(same_as(file, &written[..place]));
        }
    }
    Ok(())
}
