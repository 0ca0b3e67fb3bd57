//! The system's names of what a process has open, as `/dev/stdout`.

use std::os::unix::fs::MetadataExt;
use std::path::{Path, PathBuf};
use std::{fs, io};

/// Where the system names what this process has open. Nothing else can be put there.
const OPEN_FILES: &str = "/proc/self/fd";

/// How many links are followed, each from where the one before leads: as many as Linux follows.
const MAX_LINKS: u8 = 40;

/// Whether a path is such a name, or a link leads from it to one, whatever is open there, if anything is. Where the system has no such
/// names none is.
pub(crate) fn leads_to_stream(rt: &HostRuntime, path: &str) -> io::Result<bool> {
    let Ok(open_files) = fs::metadata(rt, OPEN_FILES) else {
        return Ok(false);
    };
    let mut at = PathBuf::from_str(rt.alloc(), path)?;
    for _link in 0..MAX_LINKS {
        if device_of_folder(rt, at.as_path()) == Some(open_files.dev()) {
            return Ok(true);
        }
        match fs::symlink_metadata(rt, at.as_str()) {
            Ok(found) if found.is_symlink() => follow(rt, &mut at)?,
            Ok(_) | Err(_) => return Ok(false),
        }
    }
    Ok(false)
}

/// Puts in the place of a path that of a link the path to which it leads.
fn follow(rt: &HostRuntime, at: &mut PathBuf) -> io::Result<()> {
    let target = fs::read_link(rt, at.as_str())?;
    let _is_below = at.pop();
    at.push(target.as_path())?;
    Ok(())
}

/// The number of the device on which the folder of a path lies; None where that isn't known.
fn device_of_folder(rt: &HostRuntime, path: Path) -> Option<u64> {
    let folder = match path.parent() {
        Some(folder) if !folder.as_str().is_empty() => folder.as_str(),
        Some(_) => ".",
        None => "/",
    };
    match fs::metadata(rt, folder) {
        Ok(found) => Some(found.dev()),
        Err(_) => None,
    }
}
