//! Where the texts of files are read.
ghost use Rattle.std.specs.Prelude.{◌≡◌, ◌<◌, ◌≤◌, ℕ, List, Option, None, length, vec_len, IfOk, IfErr, IfSome};
ghost use Rattle.knot_ports.specs.declared.limits.TheConstants.{MAX_INPUT};
ghost use Rattle.seek_parts.specs.Clash.{FilesAt};
ghost use Rattle.seek_parts.specs.Fault.{IsUnread};

use crate::fault::PartFault;
use knot_ports::{MAX_INPUT, ReadEnd, StdSource, read_all};
use std::alloc::Global;
use std::fs;
use std::io::Read;
use std::os::unix::fs::MetadataExt;

/// Gives the texts of files by their paths.
pub trait Texts {
    /// The bytes of the file of a path, or `None` where a contract can't know them.
    ghost told: { Self → List ℕ → Option (List ℕ) };

    /// All bytes of the file of a path, `MAX_INPUT` at most, which is called by this name where it can't be read. Otherwise it was not read, is
    /// too long, or memory ran out.
    fn text<'a>(
        &self,
        alloc: Global,
        path: &'a str,
        name: &'a str,
    ) -> Result<Vec<u8>, PartFault<'a>>
        ensures text { IfOk result (λ v. IfSome (told self.now path.entry.now) (λ bytes. v.items ≡ bytes)) }
        ensures within { IfOk result (λ v. vec_len v ≤ MAX_INPUT) }
        ensures fault { IfErr result (λ f. IsUnread (told self.now path.entry.now) f) };

    /// The file at a path, or `None` where a contract can't know it.
    ghost named: { Self → FilesAt };

    /// The file at a path, by its device and its number there. None where there is no file with bytes of its own: nothing
    /// is there, or a device or a pipe is, or the system doesn't say.
    fn file_at(&self, path: &str) -> Option<(u64, u64)>
        ensures { IfSome (named self.now path.now) (λ file. result ≡ file) };
}

/// The system's files, of which a contract sees nothing; `-` is standard input.
#[derive(Clone, Copy)]
pub struct SystemTexts<'r> {
    rt: &'r HostRuntime,
}

impl<'r> SystemTexts<'r> {
    /// The files of the system of a runtime.
    pub fn new(rt: &'r HostRuntime) -> SystemTexts<'r> {
        SystemTexts { rt }
    }
}

impl<'r> Texts for SystemTexts<'r> {
    ghost told = { λ s path. None };

    ghost named = { λ s path. None };

    fn file_at(&self, path: &str) -> Option<(u64, u64)> {
        match fs::metadata(self.rt, system_path(path)) {
            Ok(found) if found.is_file() => Some((found.dev(), found.ino())),
            Ok(_) | Err(_) => None,
        }
    }

    fn text<'a>(
        &self,
        alloc: Global,
        path: &'a str,
        name: &'a str,
    ) -> Result<Vec<u8>, PartFault<'a>> {
        if path == "-" {
            return read_whole(alloc, name, self.rt.stdin());
        }
        match fs::open(self.rt, path) {
            Ok(file) => read_whole(alloc, name, file),
            Err(error) => Err(PartFault::Read {
                name,
                error: Some(error),
            }),
        }
    }
}

/// A path as the system knows it: what standard input is read from has one too.
fn system_path(path: &str) -> &str {
    match path {
        "-" => "/dev/stdin",
        _ => path,
    }
}

/// All bytes that a reader gives, `MAX_INPUT` at most: those that remain in it, where std reports them.
fn read_whole<'a, R: Read + Drop>(
    alloc: Global,
    name: &'a str,
    reader: R,
) -> Result<Vec<u8>, PartFault<'a>>
    ensures whole { IfOk result (λ v. IfSome (R.remaining reader) (λ bytes. v.items ≡ bytes)) }
    ensures within { IfOk result (λ v. vec_len v ≤ MAX_INPUT) }
    ensures fault { IfErr result (λ f. IsUnread (R.remaining reader) f) }
{
    let mut source = StdSource::new(reader);
    match read_all(alloc, &mut source, MAX_INPUT) {
        Ok(bytes) => Ok(bytes),
        Err(ReadEnd::TooLong) => Err(PartFault::Long { name }),
        Err(ReadEnd::Fault) => Err(PartFault::Read {
            name,
            error: source.into_error(),
        }),
        Err(ReadEnd::OutOfMemory) => Err(PartFault::OutOfMemory),
    }
}
