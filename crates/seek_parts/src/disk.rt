//! The places of the system, on disk.
ghost use Rattle.std.specs.Prelude.{◌≡◌, ◌≤◌, None, true, false, is_some, length, take, string_bytes, IfOk, IfSome, OnOk, OnErr};
ghost use Rattle.std.specs.Fs.{IsFile};
ghost use Rattle.std.specs.Io.KnownBytes.{Keeps, Appends};
ghost use Rattle.seek_parts.specs.Place.{emptied};
ghost use Rattle.seek_parts.specs.Places.{PutsAt};

use crate::place::Place;
use crate::places::Places;
use crate::put::{put_whole, try_place};
use crate::streams::leads_to_stream;
use knot_ports::{StdSink, give_all};
use std::alloc::{AllocError, Global};
use std::fs::{File, FileType, OpenOptions, Permissions};
use std::io::Write;
use std::os::unix::fs::PermissionsExt;
use std::{fs, io, process};

/// How many bytes of a file's name leave room for more after it: a name has 255, and a process's number with what is round it takes 16.
const MAX_NAME: usize = 239;

/// A path, and a new file beside it, as `NAME.PROCESS.part`, or `.PROCESS.part` where NAME is too long for that. A contract sees
/// nothing of the bytes on disk.
#[derive(Drop)]
struct DiskPlace<'a> {
    rt: &'a HostRuntime,
    path: &'a str,
    beside: String,
    /// The mode of the file at the path, if there is one; the new one gets it too.
    mode: Option<u32>,
    file: Option<File>,
    is_stored: bool,
}

/// What is said of a path that leads to an open stream.
const IS_STREAM: &str = "it leads to an open stream, and a file would take its place";

impl<'a> DiskPlace<'a> {
    /// The place at a path. One that leads to an open stream is refused, with an error of kind `InvalidInput`.
    fn new(rt: &'a HostRuntime, path: &'a str) -> io::Result<DiskPlace<'a>> {
        if leads_to_stream(rt, path)? {
            return Err(io::Error::new(io::ErrorKind::InvalidInput, IS_STREAM));
        }
        let own = process::id(rt.process());
        Ok(DiskPlace {
            rt,
            path,
            beside: beside_of(rt.alloc(), path, own)?,
            mode: mode_at(rt, path),
            file: None,
            is_stored: false,
        })
    }
}

/// The path of the new file beside a path, by the number of the process.
fn beside_of(alloc: Global, path: &str, own: u32) -> Result<String, AllocError> {
    match path.rsplit_once('/') {
        Some((folder, name)) if name.len() > MAX_NAME => {
            format!(in alloc; "{folder}/.{own}.part")
        }
        None if path.len() > MAX_NAME => format!(in alloc; ".{own}.part"),
        _ => format!(in alloc; "{path}.{own}.part"),
    }
}

/// The mode of the file at a path; None where there is none.
fn mode_at(rt: &HostRuntime, path: &str) -> Option<u32> {
    match fs::metadata(rt, path) {
        Ok(found) => Some(found.permissions().mode()),
        Err(_) => None,
    }
}

impl<'a> Place for DiskPlace<'a> {
    ghost standing = { λ p. None };

    ghost beside = { λ p. None };

    ghost stored = { λ p. p.is_stored };

    ghost is_made = { λ p. is_some p.file };

    fn create(&mut self) -> io::Result<()> {
        let file = File::create_new(self.rt, self.beside.as_str())?;
        if let Some(mode) = self.mode {
            if let Err(error) = file.set_permissions(Permissions::from_mode(mode)) {
                let _gone = fs::remove_file(self.rt, self.beside.as_str());
                return Err(error);
            }
        }
        self.file = Some(file);
        self.is_stored = false;
        Ok(())
    }

    fn write(&mut self, piece: &[u8]) -> io::Result<usize> {
        self.is_stored = false;
        match &mut self.file {
            Some(file) => file.write(piece),
            None => Ok(0),
        }
    }

    fn store(&mut self) -> io::Result<()> {
        match &self.file {
            Some(file) => file.sync_all()?,
            None => return Err(io::Error::from(io::ErrorKind::NotFound)),
        }
        self.is_stored = true;
        Ok(())
    }

    fn rename(&mut self) -> io::Result<()> {
        fs::rename(self.rt, self.beside.as_str(), self.path)?;
        self.file = None;
        Ok(())
    }

    fn remove(&mut self) -> io::Result<()> {
        self.file = None;
        fs::remove_file(self.rt, self.beside.as_str())
    }
}

/// A device or a pipe, opened to be written where it is, and its path: the system says that what is there is no file with bytes of its own.
#[derive(Drop)]
struct Special {
    path: String,
    kind: FileType,
    file: File,
    ghost is_special: { IsFile kind → ⊥ },
}

/// The paths of the system, of which a contract sees nothing. A file is put whole, from a new one beside it; a device or a pipe is
/// written where it is.
#[derive(Drop)]
pub struct DiskPlaces<'r> {
    rt: &'r HostRuntime,
    /// The one at the path that was tried last.
    special: Option<Special>,
}

impl<'r> DiskPlaces<'r> {
    /// The paths of the system of a runtime.
    pub fn new(rt: &'r HostRuntime) -> DiskPlaces<'r> {
        DiskPlaces { rt, special: None }
    }

    /// The device or the pipe at a path, opened: the one that was tried last, if it was at this path. None where there is none.
    fn special_at(&mut self, path: &str) -> io::Result<Option<Special>>
        ensures { IfOk result (λ found. IfSome found (λ special. string_bytes special.path ≡ path.now)) }
    {
        match self.special.take() {
            Some(special) if special.path.as_str() == path => Ok(Some(special)),
            _ => open_special(self.rt, path),
        }
    }
}

impl<'r> Places for DiskPlaces<'r> {
    ghost standing = { λ p. None };

    fn try_path(&mut self, path: &str) -> io::Result<()> {
        if path.is_empty() {
            return Err(io::Error::from(io::ErrorKind::NotFound));
        }
        self.special = open_special(self.rt, path)?;
        if self.special.is_some() {
            return Ok(());
        }
        let mut place = DiskPlace::new(self.rt, path)?;
        try_place(&mut place)
    }

    fn put(&mut self, path: &str, text: &[u8]) -> io::Result<()> {
        match self.special_at(path)? {
            Some(special) => give_whole(&mut StdSink::new(special.file), text),
            None => {
                let mut place = DiskPlace::new(self.rt, path)?;
                put_whole(&mut place, text)
            }
        }
    }
}

/// The device or the pipe at a path, opened to be written where it is; None where there is a file with bytes of its own, or nothing. An
/// error comes where the system refuses the path, as one with too long a name.
fn open_special(rt: &HostRuntime, path: &str) -> io::Result<Option<Special>>
    ensures { IfOk result (λ found. IfSome found (λ special. string_bytes special.path ≡ path.now)) }
{
    match fs::metadata(rt, path) {
        Ok(found) if !found.is_file() => {
            let kind = found.file_type();
            let file = OpenOptions::new().write(true).open(rt, path)?;
            let path = String::from_str(rt.alloc(), path)?;
            Ok(Some(Special { path, kind, file }))
        }
        Ok(_) => Ok(None),
        Err(error) if error.kind() == io::ErrorKind::NotFound => Ok(None),
        Err(error) => Err(error),
    }
}

/// Gives all of a text to a writer.
fn give_whole<W: Write + Drop>(sink: &mut StdSink<W>, text: &[u8]) -> io::Result<()>
    ensures { OnOk result (Appends (W.contents sink.old.port) (W.contents sink.new.port) text.now) }
{
    match give_all(sink, text) {
        Ok(()) => Ok(()),
        Err(_) => match sink.take_error() {
            Some(error) => Err(error),
            None => Err(io::Error::from(io::ErrorKind::WriteZero)),
        },
    }
}
